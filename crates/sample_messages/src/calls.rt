// The words that work on the message or draft in hand.
use crate::{laying, looking, showing};
use message_rules::Part;
use sample_kit::{dictionaries, saying};
use sample_texts::messages;
use std::io;

pub fn part_of(letter: u8) -> Part {
    match letter {
        b'h' => Part::Header,
        b'b' => Part::Body,
        _ => Part::Trailer,
    }
}

// `b38=600`, `b-38`
fn change(rt: &impl Print, words: &mut [u32], values: &mut [u8], piece: &[u8]) -> io::Result<()> {
    let part = part_of(sample_texts::first_byte(piece));
    if sample_texts::from(piece, 1).starts_with(b"-") {
        let tag = sample_texts::number(sample_texts::from(piece, 2));
        showing::changed(rt, message::remove(words, values, part, tag))?;
    } else {
        let tag = sample_texts::number(sample_texts::before(sample_texts::from(piece, 1), b'='));
        let value = sample_texts::behind(piece, b'=');
        showing::changed(rt, message::store(words, values, part, tag, value))?;
    }
    Ok(())
}

fn encode(
    rt: &impl Print,
    words: &mut [u32],
    values: &mut [u8],
    separator: u8,
    room: usize,
) -> io::Result<()> {
    let mut output = [b'_'; 8300];
    if room <= output.len() {
        let encoded = encoder::encode(words, values, &mut output[..room], separator);
        showing::encoded(rt, encoded, &output)?;
    }
    Ok(())
}

// `1:2,0,0,38,9,1`
fn take(rt: &impl Print, words: &mut [u32], values: &mut [u8], text: &[u8]) -> io::Result<()> {
    let mut records = [0u32; 24];
    let count = sample_texts::number(sample_texts::before(text, b':')) as usize;
    let size = laying::numbers(&mut records, sample_texts::behind(text, b':'));
    let listed = sample_texts::first(&records, size);
    showing::taken(
        rt,
        message_take_over::take_over(listed, count, b"ABCDEFGHIJ", words, values),
    )
}

fn take_over(
    rt: &impl Print,
    words: &mut [u32],
    values: &mut [u8],
    message: &[u8],
    records: &[u32; build_records::WORDS],
    count: usize,
) -> io::Result<()> {
    showing::taken(
        rt,
        message_take_over::take_over(&records[..], count, message, words, values),
    )
}

fn take_built(
    rt: &impl Print,
    words: &mut [u32],
    values: &mut [u8],
    message: &[u8],
    dictionary: &[u8],
) -> io::Result<()> {
    let config = build_config::config_of(1, 1);
    let mut records = [0u32; build_records::WORDS];
    let built = builder::build(message, config, dictionary, 1024, &mut records);
    print!(rt; " {}", build_answers::number_of(built.answer))?;
    take_over(rt, words, values, message, &records, built.records)
}

fn build(
    rt: &impl Print,
    words: &mut [u32],
    values: &mut [u8],
    script: &[u8],
    text: &[u8],
) -> io::Result<()> {
    let mut spelled = [0u8; 300];
    let mut message = [0u8; 300];
    let dictionary_size = dictionaries::spell(&mut spelled, 0, sample_texts::before(script, b'\n'));
    let size = messages::spell(&mut message, 0, text, 1);
    take_built(
        rt,
        words,
        values,
        sample_texts::first(&message, size),
        sample_texts::first(&spelled, dictionary_size),
    )
}

fn new_message(
    rt: &impl Print,
    words: &mut [u32],
    values: &mut [u8],
    text: &[u8],
) -> io::Result<()> {
    let begin_string = sample_texts::before(text, b',');
    let message_type = sample_texts::behind(text, b',');
    showing::changed(rt, message::new(words, values, begin_string, message_type))
}

fn add_entry(rt: &impl Print, words: &mut [u32], values: &mut [u8], text: &[u8]) -> io::Result<()> {
    let start = sample_texts::number_at(text, b',', 0);
    let delimiter = sample_texts::number_at(text, b',', 1);
    showing::changed(rt, message_runs::add_entry(words, values, start, delimiter))
}

fn store_last(
    rt: &impl Print,
    words: &mut [u32],
    values: &mut [u8],
    text: &[u8],
) -> io::Result<()> {
    let tag = sample_texts::number(sample_texts::before(text, b'='));
    let value = sample_texts::behind(text, b'=');
    showing::changed(rt, message_runs::store_last(words, values, tag, value))
}

// Hangs what was laid aside: `b` on a part, and with no letter in the last entry.
fn hang(
    rt: &impl Print,
    words: &mut [u32],
    values: &mut [u8],
    text: &[u8],
    aside: &[u32],
    bytes: &[u8],
) -> io::Result<()> {
    if text.is_empty() {
        print!(rt; " nested")?;
        showing::changed(rt, message_runs::hang_last(words, values, aside, bytes))?;
    } else {
        let part = part_of(sample_texts::first_byte(text));
        print!(rt; " hung")?;
        showing::changed(rt, message_runs::hang(words, values, part, aside, bytes))?;
    }
    Ok(())
}

fn other_call(
    rt: &impl Print,
    words: &mut [u32],
    values: &mut [u8],
    piece: &[u8],
) -> io::Result<()> {
    let text = sample_texts::from(piece, 1);
    match sample_texts::first_byte(piece) {
        b'/' => looking::field(rt, words, values, text)?,
        b'&' => looking::entry(rt, words, values, text)?,
        b'?' => showing::message(rt, words, values)?,
        b'+' => add_entry(rt, words, values, text)?,
        b'v' => store_last(rt, words, values, text)?,
        b';' => {
            message::empty(words, values);
        }
        b'd' => {
            message_runs::empty(words, values);
        }
        b':' => {
            saying::piece(rt, piece, b":")?;
            message::empty(words, values);
        }
        _ => laying::lay(rt, words, values, piece)?,
    }
    Ok(())
}

pub fn call(
    rt: &impl Print,
    words: &mut [u32],
    values: &mut [u8],
    aside: &[u32],
    bytes: &[u8],
    script: &[u8],
    piece: &[u8],
) -> io::Result<()> {
    let text = sample_texts::from(piece, 1);
    match sample_texts::first_byte(piece) {
        b'h' | b'b' | b't' => change(rt, words, values, piece)?,
        b'!' => encode(rt, words, values, 1, sample_texts::number(text) as usize)?,
        b'%' => encode(rt, words, values, sample_texts::first_byte(text), 8192)?,
        b'<' => build(rt, words, values, script, text)?,
        b'@' => take(rt, words, values, text)?,
        b'0' => showing::changed(rt, message::empty(words, values))?,
        b'n' => new_message(rt, words, values, text)?,
        b'^' => hang(rt, words, values, text, aside, bytes)?,
        _ => other_call(rt, words, values, piece)?,
    }
    Ok(())
}
