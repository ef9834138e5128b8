// Builds a message, plain and over prepared memory, and writes a line about the answer.
use build_config::Config;
use build_records::Record;
use builder::Built;
use sample_kit::saying;
use std::io;

fn show_record(rt: &impl Print, message: &[u8], record: Record) -> io::Result<()> {
    print!(rt;
        " {}/{}/{}/{}/",
        record.part, record.depth, record.number, record.tag
    )?;
    saying::bytes(
        rt,
        sample_texts::part(message, record.place as usize, record.length as usize),
    )
}

fn show_records(
    rt: &impl Print,
    message: &[u8],
    words: &[u32; build_records::WORDS],
    count: usize,
) -> io::Result<()> {
    for i in 0..count {
        show_record(rt, message, build_records::record_at(&words[..], i))?;
    }
    Ok(())
}

// Whether all words from a record on hold one number.
fn all_hold(words: &[u32; build_records::WORDS], record: usize, n: u32) -> bool {
    let rest = sample_texts::from(words, record.saturating_mul(build_records::STRIDE));
    rest.iter().all(|&word| word == n)
}

// What the words hold behind the shown records, where all held 7 before the build.
fn show_rest(
    rt: &impl Print,
    words: &[u32; build_records::WORDS],
    count: usize,
    written: usize,
    lent: usize,
) -> io::Result<()> {
    if written == 0 && all_hold(words, 0, 7) {
        return print!(rt; " as they were");
    }
    if written == lent && all_hold(words, count, 0) {
        return print!(rt; " blank");
    }
    print!(rt; " otherwise")
}

// Whether two builds are answered alike.
fn same(built: Built, again: Built) -> bool {
    let values = build_answers::values_of(built.answer);
    let values_again = build_answers::values_of(again.answer);
    build_answers::number_of(built.answer) == build_answers::number_of(again.answer)
        && values.first == values_again.first
        && values.second == values_again.second
        && built.records == again.records
        && built.written == again.written
}

// Builds again over memory that the dictionary was prepared in, if it can be; only where that is answered otherwise, it is said.
fn compare_over(
    rt: &impl Print,
    message: &[u8],
    config: Config,
    dictionary: &[u8],
    lent: usize,
    built: Built,
    words: &[u32; build_records::WORDS],
    memory: &mut [u16],
) -> io::Result<()> {
    let mut copy = [7u8; 60000];
    let mut again = [7u32; build_records::WORDS];
    let prepared = dictionary_prepared::prepare(dictionary, &mut copy[..], memory);
    if dictionary_prepared::number_of(prepared) != 0 {
        return Ok(());
    }
    let over = builder::build_prepared(message, config, &copy[..], memory, lent, &mut again);
    if !same(built, over) {
        return print!(rt; " otherwise over prepared memory");
    }
    if words[..] != again[..] {
        print!(rt; " other records over prepared memory")?;
    }
    Ok(())
}

// Once in the least memory, where each build lays its message's table, and once in memory with room for tables.
fn compare_prepared(
    rt: &impl Print,
    message: &[u8],
    config: Config,
    dictionary: &[u8],
    lent: usize,
    built: Built,
    words: &[u32; build_records::WORDS],
) -> io::Result<()> {
    let mut least = [7u16; dictionary_prepared::HEAD];
    let mut roomy = [7u16; 160000];
    compare_over(
        rt,
        message,
        config,
        dictionary,
        lent,
        built,
        words,
        &mut least[..],
    )?;
    compare_over(
        rt,
        message,
        config,
        dictionary,
        lent,
        built,
        words,
        &mut roomy[..],
    )
}

// Builds and tells, with the records where they are asked for.
pub fn told(
    rt: &impl Print,
    message: &[u8],
    config: Config,
    dictionary: &[u8],
    lent: usize,
    shown: bool,
) -> io::Result<()> {
    let mut words = [7u32; build_records::WORDS];
    let built = builder::build(message, config, dictionary, lent, &mut words);
    let count = built.records;
    let values = build_answers::values_of(built.answer);
    print!(rt; " {} {count}", build_answers::number_of(built.answer))?;
    print!(rt; " {} {}", values.first, values.second)?;
    show_rest(rt, &words, count, built.written, lent)?;
    if shown {
        show_records(rt, message, &words, count)?;
    }
    compare_prepared(rt, message, config, dictionary, lent, built, &words)
}

// Prepares a dictionary in a copy and a memory, and tells the number and value of that, and the number of a build of no byte over them.
fn over(
    rt: &impl Print,
    config: Config,
    dictionary: &[u8],
    lent: usize,
    copy: &mut [u8],
    memory: &mut [u16],
) -> io::Result<()> {
    let mut words = [7u32; build_records::WORDS];
    let preparing = dictionary_prepared::prepare(dictionary, copy, memory);
    let built = builder::build_prepared(&[], config, copy, memory, lent, &mut words);
    let number = dictionary_prepared::number_of(preparing);
    let value = dictionary_prepared::value_of(preparing);
    print!(rt;
        " {number} {value} then {}",
        build_answers::number_of(built.answer)
    )?;
    show_rest(rt, &words, built.records, built.written, lent)
}

// The copy has 62 bytes, 61 or as many as a dictionary may have and one more; the memory has its words, or one less.
pub fn prepared(
    rt: &impl Print,
    config: Config,
    dictionary: &[u8],
    lent: usize,
    kind: u8,
) -> io::Result<()> {
    let mut copy = [7u8; 62];
    let mut short_copy = [7u8; 61];
    let mut long_copy = [7u8; 60001];
    let mut memory = [7u16; dictionary_prepared::HEAD];
    let mut short_memory = [7u16; 96156];
    match kind {
        b'c' => over(rt, config, dictionary, lent, &mut short_copy, &mut memory),
        b'w' => over(rt, config, dictionary, lent, &mut copy, &mut short_memory),
        b'l' => over(rt, config, dictionary, lent, &mut long_copy, &mut memory),
        _ => over(rt, config, dictionary, lent, &mut copy, &mut memory),
    }
}
