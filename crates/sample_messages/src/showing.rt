// Writes answers, messages and encodings.
use crate::laying;
use encode_rules::Encoding;
use message_rules::Change;
use message_take_over::Taken;
use sample_kit::saying;
use std::io;

pub fn changed(rt: &impl Print, change: Change) -> io::Result<()> {
    print!(rt; " {}", message_answers::change_number(change))
}

pub fn taken(rt: &impl Print, taken: Taken) -> io::Result<()> {
    print!(rt; " {}", message_answers::taken_number(taken))
}

// Whether an output that was all `_` still is, from a place on.
fn stays(output: &[u8], place: usize) -> bool {
    sample_texts::from(output, place)
        .iter()
        .all(|&byte| byte == b'_')
}

// The answer; the length and, where it is short, the encoding; a word where more of the output was written over.
pub fn encoded(rt: &impl Print, encoding: Encoding, output: &[u8]) -> io::Result<()> {
    print!(rt; " {}", message_answers::encoding_number(encoding))?;
    let length = message_answers::encoding_length(encoding);
    if 0 < length {
        print!(rt; " {length}")?;
        if length < 200 {
            print!(rt; " ")?;
            saying::bytes(rt, sample_texts::first(output, length))?;
        }
    }
    if !stays(output, length) {
        print!(rt; " overwritten")?;
    }
    Ok(())
}

// Ends maps until so many are open: entries, and the part that holds them.
fn close(rt: &impl Print, opened: u32, to: u32) -> io::Result<()> {
    for left in (to..opened).rev() {
        print!(rt; "{}", if left == 0 { ']' } else { ')' })?;
    }
    Ok(())
}

fn head(rt: &impl Print, words: &[u32], row: u32) -> io::Result<()> {
    if laying::in_row(words, row, 1) == 0 {
        return print!(rt; "[");
    }
    let start = laying::in_row(words, row, 2);
    print!(rt; "({start},{}:", laying::in_row(words, row, 3))
}

fn field(rt: &impl Print, words: &[u32], values: &[u8], row: u32, place: usize) -> io::Result<()> {
    print!(rt; "{}=", laying::in_row(words, row, 2))?;
    saying::bytes(
        rt,
        sample_texts::part(values, place, laying::value_size(words, row) as usize),
    )?;
    print!(rt; "|")
}

// A row, where so many maps are open; how many are behind it.
fn row(
    rt: &impl Print,
    words: &[u32],
    values: &[u8],
    row: u32,
    opened: u32,
    place: usize,
) -> io::Result<u32> {
    let level = laying::in_row(words, row, 1);
    close(rt, opened, level)?;
    if laying::in_row(words, row, 0) == 2 {
        head(rt, words, row)?;
        return Ok(level % 10000 + 1);
    }
    field(rt, words, values, row, place)?;
    Ok(level)
}

// A message in the order of its rows: parts in [], entries in () behind their start and delimiter tags.
pub fn message(rt: &impl Print, words: &[u32], values: &[u8]) -> io::Result<()> {
    print!(rt; " ")?;
    let mut opened: u32 = 0;
    let mut place: usize = 0;
    for i in 0..laying::row_count(words) {
        opened = row(rt, words, values, i, opened, place)?;
        place = place % 100000 + laying::value_size(words, i) as usize;
    }
    close(rt, opened, 0)
}
