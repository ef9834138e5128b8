// Writes the lines of the way.
use build_records::Record;
use sample_kit::saying;
use std::io;

// A sentence, and the number that it goes on with.
pub fn step(rt: &impl Print, text: &str, n: usize) -> io::Result<()> {
    print!(rt; "{text} {n}")
}

// A message in a line of its own.
pub fn line(rt: &impl Print, bytes: &[u8]) -> io::Result<()> {
    print!(rt; "     ")?;
    saying::bytes(rt, bytes)?;
    println!(rt;)
}

fn part(number: u32) -> &'static str {
    match number {
        build_records::HEADER => "header",
        build_records::BODY => "body",
        _ => "trailer",
    }
}

fn record(rt: &impl Print, message: &[u8], record: Record) -> io::Result<()> {
    print!(rt; "     {:9}{}=", part(record.part), record.tag)?;
    saying::bytes(
        rt,
        sample_texts::part(message, record.place as usize, record.length as usize),
    )?;
    println!(rt;)
}

pub fn records(
    rt: &impl Print,
    message: &[u8],
    words: &[u32; build_records::WORDS],
    count: usize,
) -> io::Result<()> {
    for i in 0..count {
        record(rt, message, build_records::record_at(&words[..], i))?;
    }
    Ok(())
}
