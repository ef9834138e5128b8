// Dictionaries, messages built over them, and messages that are built and encoded again.
use crate::{encoded, hexadecimal};
use build_answers::Answer;
use build_records::Record;
use std::io;

// Keeps a dictionary and checks it; its size.
pub fn keep(rt: &impl Print, dictionary: &mut [u8], text: &[u8]) -> io::Result<usize> {
    let size = hexadecimal::read(dictionary, text);
    let checked = dictionary_check::check(sample_texts::first(dictionary, size));
    let value = dictionary_check::value_of(checked);
    print!(rt; "{} {value}", dictionary_check::number_of(checked))?;
    Ok(size)
}

// PART.DEPTH.ENTRY.TAG.VALUE
fn record(rt: &impl Print, message: &[u8], record: Record) -> io::Result<()> {
    print!(rt;
        " {}.{}.{}.{}.",
        record.part, record.depth, record.number, record.tag
    )?;
    hexadecimal::say(
        rt,
        sample_texts::part(message, record.place as usize, record.length as usize),
    )
}

fn records_of(
    rt: &impl Print,
    message: &[u8],
    words: &[u32; build_records::WORDS],
    count: usize,
) -> io::Result<()> {
    for i in 0..count {
        record(rt, message, build_records::record_at(&words[..], i))?;
    }
    Ok(())
}

// NUMBER FIRST SECOND COUNT and so many records
fn told(
    rt: &impl Print,
    message: &[u8],
    answer: Answer,
    words: &[u32; build_records::WORDS],
    count: usize,
) -> io::Result<()> {
    let values = build_answers::values_of(answer);
    print!(rt; "{}", build_answers::number_of(answer))?;
    print!(rt; " {} {} {count}", values.first, values.second)?;
    records_of(rt, message, words, count)
}

fn encode_built(
    rt: &impl Print,
    message: &[u8],
    records: &[u32; build_records::WORDS],
    count: usize,
    separator: u8,
) -> io::Result<()> {
    let mut words = [0u32; message_maps::WORDS];
    let mut values = [0u8; 8192];
    message_take_over::take_over(&records[..], count, message, &mut words, &mut values);
    encoded::encode(rt, &mut words, &mut values, separator)
}

// `NUMBER SEPARATOR VALIDATE BYTES`, or `NUMBER SEPARATOR VALIDATE SECOND BYTES` where it is encoded again with a second separator.
pub fn build(rt: &impl Print, text: &[u8], dictionary: &[u8], again: bool) -> io::Result<()> {
    let mut space = [0u8; 2000];
    let mut words = [0u32; build_records::WORDS];
    let separator = hexadecimal::byte(sample_texts::piece(text, b' ', 1));
    let settings = sample_texts::number_at(text, b' ', 2);
    let config = build_config::config_of(settings, separator);
    let further = sample_texts::piece(text, b' ', 3);
    let given = if again { 4 } else { 3 };
    let size = hexadecimal::read(&mut space, sample_texts::piece(text, b' ', given));
    let message = sample_texts::first(&space, size);
    let built = builder::build(message, config, dictionary, 1024, &mut words);
    let answer = built.answer;
    let count = built.records;
    if again && build_answers::number_of(answer) == 0 {
        return encode_built(rt, message, &words, count, hexadecimal::byte(further));
    }
    told(rt, message, answer, &words, count)
}
