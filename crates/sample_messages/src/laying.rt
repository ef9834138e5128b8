// Lays rows out by hand, whatever they say, so that messages can be lent that no call would make.
ghost use Rattle.std.specs.Prelude.{◌<◌};

use sample_kit::saying;
use std::io;

// The numbers of a text with commas between them; how many they are.
pub fn numbers(out: &mut [u32], text: &[u8]) -> usize {
    let mut count: usize = 0;
    for piece in text.split_inclusive(|&byte| byte == b',') {
        let n = sample_texts::number(sample_texts::before(piece, b','));
        sample_texts::put(out, count, n);
        count = count % 24 + 1;
    }
    count
}

// A number of a row of the four that it has: kind, level, tag, and the value's length or the delimiter.
pub fn in_row(words: &[u32], row: u32, place: u32) -> u32 {
    sample_texts::at(words, (row % 3000 * 4 + 1 + place % 4) as usize)
}

// As many rows as are counted, and no more than can be counted here.
pub fn row_count(words: &[u32]) -> u32
    ensures { result < 3000 }
{
    sample_texts::at(words, 0) % 3000
}

// Says how many rows there are, where there is room for that.
fn count_rows(words: &mut [u32], count: u32) {
    sample_texts::put(words, 0, count);
}

fn row(words: &mut [u32], kind: u32, level: u32, tag: u32, extra: u32) {
    let count = row_count(words);
    let place = (count * 4 + 1) as usize;
    sample_texts::copy(words, place, &[kind, level, tag, extra]);
    count_rows(words, count + 1);
}

// The length of a row's value, 0 where it has none.
pub fn value_size(words: &[u32], row: u32) -> u32 {
    if in_row(words, row, 0) == 1 {
        return in_row(words, row, 3);
    }
    0
}

// How many bytes the values of all rows have, where they are not too many.
fn used(words: &[u32]) -> usize {
    let mut size: usize = 0;
    for i in 0..row_count(words) {
        size = size % 100000 + value_size(words, i) as usize;
    }
    size
}

// `LEVEL,TAG=VALUE`, the value behind those of all rows
fn field(words: &mut [u32], values: &mut [u8], text: &[u8]) {
    let level = sample_texts::number_at(text, b',', 0);
    let tag = sample_texts::number(sample_texts::before(sample_texts::behind(text, b','), b'='));
    let value = sample_texts::behind(text, b'=');
    sample_texts::copy(values, used(words), value);
    row(words, 1, level, tag, (value.len() % 10000) as u32);
}

// Of `1,38,600` one number.
fn at(text: &[u8], place: usize) -> u32 {
    sample_texts::number_at(text, b',', place)
}

pub fn lay(rt: &impl Print, words: &mut [u32], values: &mut [u8], piece: &[u8]) -> io::Result<()> {
    let text = sample_texts::from(piece, 1);
    match sample_texts::first_byte(piece) {
        b'~' => count_rows(words, 0),
        b'p' => row(words, 2, 0, sample_texts::number(text), 0),
        b'f' => field(words, values, text),
        b'e' => row(words, 2, at(text, 0), at(text, 1), at(text, 2)),
        b'#' => row(words, at(text, 0), at(text, 1), at(text, 2), at(text, 3)),
        b'w' => count_rows(words, sample_texts::number(text)),
        _ => saying::piece(rt, piece, b":")?,
    }
    Ok(())
}
