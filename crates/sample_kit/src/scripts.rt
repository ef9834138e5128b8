// Reads a script and lays it out in pieces.
use crate::reading;
use std::io;
use std::io::Read;

// A byte of a repeated text at one of its numbers.
fn numbered_byte(out: &mut [u8], at: usize, byte: u8, n: u32, space: u8) -> usize {
    match byte {
        b'@' => sample_texts::put_number(out, at, n),
        b'<' => sample_texts::put_number(out, at, n.saturating_sub(1)),
        b' ' => sample_texts::put(out, at, space),
        _ => sample_texts::put(out, at, byte),
    }
}

fn numbered(out: &mut [u8], at: usize, text: &[u8], n: u32, space: u8) -> usize {
    let mut next = at;
    for &byte in text {
        next = numbered_byte(out, next, byte, n, space);
    }
    next
}

// `{FIRST..LAST:TEXT`, the text for each number.
fn repeated(out: &mut [u8], at: usize, text: &[u8], space: u8) -> usize {
    let piece = sample_texts::behind(text, b':');
    let last = sample_texts::number(sample_texts::piece(sample_texts::before(text, b':'), b'.', 2));
    let first = sample_texts::number(sample_texts::before(sample_texts::from(text, 1), b'.'));
    let mut next = at;
    for n in first..=last.max(first) {
        next = numbered(out, next, piece, n, space);
    }
    next
}

fn spaced(out: &mut [u8], at: usize, text: &[u8], space: u8) -> usize {
    let mut next = at;
    for &byte in text {
        next = sample_texts::put(out, next, if byte == b' ' { space } else { byte });
    }
    next
}

// A text with its repeats written out, another byte standing for its spaces.
fn written_out(out: &mut [u8], at: usize, text: &[u8], space: u8) -> usize {
    let mut next = at;
    // No index is counted, and no split does it: a repeat opens with one mark and closes with another.
    let mut from: usize = 0;
    while from < text.len() {
        let open = sample_texts::end_of(text, from, b'{');
        let close = sample_texts::end_of(text, open, b'}');
        next = spaced(out, next, &text[from..open], space);
        next = repeated(out, next, &text[open..close], space);
        from = close + 1;
    }
    next
}

fn name_of(line: &[u8]) -> &[u8] {
    if sample_texts::first_byte(line) == b' ' {
        return &[];
    }
    sample_texts::before(line, b':')
}

fn words_of(line: &[u8]) -> &[u8] {
    if sample_texts::first_byte(line) == b' ' {
        return line;
    }
    sample_texts::behind(line, b':')
}

fn case(out: &mut [u8], at: usize, line: &[u8]) -> usize {
    let a = sample_texts::put(out, at, b':');
    let b = sample_texts::copy(out, a, name_of(line));
    let c = sample_texts::put(out, b, b'\n');
    let d = written_out(out, c, words_of(line), b'\n');
    sample_texts::copy(out, d, b"\n.\n")
}

fn line(out: &mut [u8], at: usize, line: &[u8]) -> usize {
    match sample_texts::first_byte(line) {
        0 | b'#' => at,
        b'-' => {
            let end = sample_texts::copy(out, at, line);
            sample_texts::put(out, end, b'\n')
        }
        b'*' => {
            let end = written_out(out, at, line, b' ');
            sample_texts::put(out, end, b'\n')
        }
        _ => case(out, at, line),
    }
}

// Lays the lines of a text out in pieces; the size of these.
fn pieces(out: &mut [u8], text: &[u8]) -> usize {
    let mut next: usize = 0;
    for row in text.split(|&byte| byte == b'\n') {
        next = line(out, next, row);
    }
    next
}

// Room for the pieces of a script.
pub fn room() -> [u8; 600000] {
    [0u8; 600000]
}

// Reads the script on an input, of up to 40,000 bytes, and lays it out; the size of its pieces.
pub fn read(input: &mut impl Read, out: &mut [u8]) -> io::Result<usize> {
    let mut script = [0u8; 40000];
    let size = reading::full(input, &mut script)?;
    Ok(pieces(out, sample_texts::first(&script, size)))
}
