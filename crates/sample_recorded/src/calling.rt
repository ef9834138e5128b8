// Messages made by calls: a step for each, as `STEP STEP ..`.
use crate::{drafts, encoded, hexadecimal};
use message_rules::{Change, Part};
use std::io;

fn changed(rt: &impl Print, change: Change) -> io::Result<()> {
    print!(rt; "{}", message_answers::change_number(change))
}

// `STEP.PART..`
fn part_of(text: &[u8]) -> Part {
    match sample_texts::first_byte(sample_texts::piece(text, b'.', 1)) {
        b'1' => Part::Header,
        b'2' => Part::Body,
        _ => Part::Trailer,
    }
}

// `new.BEGIN.KIND`
fn new_message(
    rt: &impl Print,
    words: &mut [u32],
    values: &mut [u8],
    text: &[u8],
) -> io::Result<()> {
    let mut begin = [0u8; 100];
    let mut kind = [0u8; 100];
    let begin_size = hexadecimal::read(&mut begin, sample_texts::piece(text, b'.', 1));
    let kind_size = hexadecimal::read(&mut kind, sample_texts::piece(text, b'.', 2));
    let begin_string = sample_texts::first(&begin, begin_size);
    let message_type = sample_texts::first(&kind, kind_size);
    changed(rt, message::new(words, values, begin_string, message_type))
}

// `store.PART.TAG.VALUE`
fn store(rt: &impl Print, words: &mut [u32], values: &mut [u8], text: &[u8]) -> io::Result<()> {
    let mut space = [0u8; 2000];
    let tag = sample_texts::number_at(text, b'.', 2);
    let size = hexadecimal::read(&mut space, sample_texts::piece(text, b'.', 3));
    let value = sample_texts::first(&space, size);
    changed(rt, message::store(words, values, part_of(text), tag, value))
}

// `remove.PART.TAG`
fn remove(rt: &impl Print, words: &mut [u32], values: &mut [u8], text: &[u8]) -> io::Result<()> {
    let tag = sample_texts::number_at(text, b'.', 2);
    changed(rt, message::remove(words, values, part_of(text), tag))
}

// `run.PART.ROWS`: a run is made as a draft and hung.
fn hang(rt: &impl Print, words: &mut [u32], values: &mut [u8], text: &[u8]) -> io::Result<()> {
    let mut run_words = [0u32; message_maps::WORDS];
    let mut run_values = [0u8; 8192];
    let rows = sample_texts::behind(sample_texts::behind(text, b'.'), b'.');
    let made = drafts::draft(&mut run_words, &mut run_values, rows, 0);
    if made == 0 {
        changed(
            rt,
            message_runs::hang(words, values, part_of(text), &run_words, &run_values),
        )?;
    } else {
        print!(rt; "{made}")?;
    }
    Ok(())
}

// The third letters of the steps' names differ.
fn step(rt: &impl Print, words: &mut [u32], values: &mut [u8], text: &[u8]) -> io::Result<()> {
    match sample_texts::at(text, 2) {
        b'p' => changed(rt, message::empty(words, values))?,
        b'w' => new_message(rt, words, values, text)?,
        b'o' => store(rt, words, values, text)?,
        b'm' => remove(rt, words, values, text)?,
        b'n' => hang(rt, words, values, text)?,
        b'c' => encoded::encode(
            rt,
            words,
            values,
            hexadecimal::byte(sample_texts::behind(text, b'.')),
        )?,
        _ => print!(rt; "unreadable")?,
    }
    Ok(())
}

fn steps(rt: &impl Print, words: &mut [u32], values: &mut [u8], text: &[u8]) -> io::Result<()> {
    for (i, piece) in text.split_inclusive(|&byte| byte == b' ').enumerate() {
        if 0 < i {
            print!(rt; " ")?;
        }
        step(rt, words, values, sample_texts::before(piece, b' '))?;
    }
    Ok(())
}

pub fn calls(rt: &impl Print, text: &[u8]) -> io::Result<()> {
    let mut words = [0u32; message_maps::WORDS];
    let mut values = [0u8; 8192];
    message::empty(&mut words, &mut values);
    steps(rt, &mut words, &mut values, text)
}
