// sample_whole_way: one sample on its whole way, as README.md tells it: a damaged stream, the hunting framer, a build, an encoding, a change and an
// encoding again. Nothing is told that was not computed, but for the sentences between.
#![tactic(auto)]

mod sample;
mod showing;

use encode_rules::Encoding;
use message_rules::Part;
use std::io;

const SEPARATOR: u8 = 1;

// How many fields stand in a message, repeated ones among them.
fn count_fields(message: &[u8]) -> usize {
    let mode = field_tagvalue::separated_by(SEPARATOR);
    let mut cursor = field_tagvalue::start_at(0);
    for count in 0..1024 {
        let Ok(field) = field_tagvalue::next_field(cursor, message, mode) else {
            return count;
        };
        cursor = field.next;
    }
    1024
}

// The first frame of the stream, at the start of the output; answers its length.
fn hunt(rt: &impl Print, output: &mut [u8]) -> io::Result<usize> {
    let mut store = [0u8; 16384];
    showing::step(rt, "1. The stream:", sample::STREAM.len())?;
    println!(rt; " bytes, two copies of one order. A byte of the first was damaged on the way:")?;
    showing::line(rt, &sample::STREAM)?;
    let given = frame_hunter::push(frame_hunter::reset(), &mut store, &sample::STREAM);
    let taken = frame_hunter::take(given.state, &mut store, output);
    showing::step(
        rt,
        "2. The hunting framer drops",
        taken.state.dropped as usize,
    )?;
    showing::step(rt, " places and hands out", taken.length)?;
    println!(rt; " bytes:")?;
    showing::line(rt, sample_texts::first(output, taken.length))?;
    Ok(taken.length)
}

fn take_over(
    records: &[u32; build_records::WORDS],
    count: usize,
    frame: &[u8],
    words: &mut [u32],
    values: &mut [u8],
) {
    message_take_over::take_over(&records[..], count, frame, words, values);
}

// Builds the frame, shows what is held, and takes it over into a lent message.
fn build(rt: &impl Print, frame: &[u8], words: &mut [u32], values: &mut [u8]) -> io::Result<()> {
    let config = build_config::config_of(1, SEPARATOR);
    let mut records = [0u32; build_records::WORDS];
    let mut copy = [0u8; 60000];
    // Room for the dictionary's tables behind the head.
    let mut memory = [0u16; 160000];
    let preparing = dictionary_prepared::prepare(
        &sample::DICTIONARY,
        &mut copy[..],
        &mut memory[..],
    );
    let built = builder::build_prepared(frame, config, &copy[..], &memory[..], 1024, &mut records);
    let count = built.records;
    showing::step(
        rt,
        "3. The dictionary is prepared once, which answers",
        dictionary_prepared::number_of(preparing) as usize,
    )?;
    showing::step(
        rt,
        ". A build over it answers",
        build_answers::number_of(built.answer) as usize,
    )?;
    showing::step(rt, ". Fields read:", count_fields(frame))?;
    showing::step(rt, ", fields held:", count)?;
    println!(rt; "")?;
    showing::records(rt, frame, &records, count)?;
    println!(rt; "   38 came as 600 and again as 800. 800 took its place, as in the Rust.")?;
    take_over(&records, count, frame, words, values);
    Ok(())
}

fn encode(
    rt: &impl Print,
    words: &mut [u32],
    values: &mut [u8],
    output: &mut [u8],
) -> io::Result<()> {
    match encoder::encode(words, values, output, SEPARATOR) {
        Encoding::Written(length) => {
            let written = sample_texts::first(output, length);
            showing::line(rt, written)?;
            showing::step(rt, "   Fields written:", count_fields(written))?;
        }
        _ => print!(rt; "   refused")?,
    }
    Ok(())
}

fn main(rt: HostRuntime) -> io::Result<()> {
    let mut output = [0u8; 8192];
    let mut words = [0u32; message_maps::WORDS];
    let mut values = [0u8; 8192];
    let mut encoded = [0u8; 8192];
    let length = hunt(&rt, &mut output)?;
    build(
        &rt,
        sample_texts::first(&output, length),
        &mut words,
        &mut values,
    )?;
    println!(rt; "4. Encoded as it is held, with its own BodyLength and CheckSum:")?;
    encode(&rt, &mut words, &mut values, &mut encoded)?;
    println!(rt; ". Every check downstream passes, and nothing shows that it once said 600.")?;
    println!(rt;
        "   The count of fields read against fields held does: here the gateway stops it."
    )?;
    message::store(&mut words, &mut values, Part::Body, 38, b"600");
    message::store(&mut words, &mut values, Part::Body, 58, b"38 came twice");
    println!(rt; "5. Changed, 38 stored as 600 and 58 as a remark, and encoded again:")?;
    encode(&rt, &mut words, &mut values, &mut encoded)?;
    println!(rt; ".")
}
