// sample_fields: reads fields and numbers at the edges of stage one, and writes what was read. The lines of `stdout` were written from the rules.
// Its script (see sample_kit) has these words:
//   f4,1:8=a|35=D|   the field at a place of these bytes, with that byte as separator
//   n0005  s163      what a text is worth as a number; as a CheckSum
//   +8=F|            the sum of these bytes
//   d7               the digits of a CheckSum
//   w8192,3          the digits of a number, from a place on of an output of twelve dots
#![tactic(auto)]

use field_rules::{Cause, Field, Unreadable};
use sample_kit::{saying, scripts};
use sample_texts::messages;
use std::io;

fn read(text: &[u8]) -> Result<Field, Unreadable> {
    let mut message = [0u8; 100];
    let numbers = sample_texts::before(text, b':');
    let place = sample_texts::number_at(numbers, b',', 0) as usize;
    let separator = (sample_texts::number_at(numbers, b',', 1) % 256) as u8;
    let size = messages::spell(&mut message, 0, sample_texts::behind(text, b':'), separator);
    let mode = field_tagvalue::separated_by(separator);
    let cursor = field_tagvalue::start_at(place);
    field_tagvalue::next_field(cursor, sample_texts::first(&message, size), mode)
}

fn field(rt: &impl Print, read: Result<Field, Unreadable>) -> io::Result<()> {
    match read {
        Ok(field) => {
            print!(rt;
                "  tag {}, from {}, value at {}",
                field.tag, field.first, field.place
            )?;
            print!(rt; " of length {}, next at {}", field.length, field.next.at)
        }
        Err((cause, place)) => {
            let cause = match cause {
                Cause::NoEquals => "no equals",
                Cause::NoSeparator => "no separator",
                Cause::BadTag => "bad tag",
            };
            print!(rt; "  {cause} at {place}")
        }
    }
}

fn worth(rt: &impl Print, number: Option<u32>) -> io::Result<()> {
    match number {
        Some(n) => print!(rt; "  {n}"),
        None => print!(rt; "  no number"),
    }
}

fn sum(rt: &impl Print, text: &[u8]) -> io::Result<()> {
    let mut bytes = [0u8; 100];
    let size = messages::spell(&mut bytes, 0, text, 1);
    print!(rt;
        "  {}",
        field_numbers::sum_of(sample_texts::first(&bytes, size))
    )
}

fn digits(rt: &impl Print, n: u32) -> io::Result<()> {
    let digits = field_numbers::checksum_digits((n % 256) as u8);
    print!(rt; "  ")?;
    rt.write_all(&digits)
}

fn written(rt: &impl Print, n: u32, place: usize) -> io::Result<()> {
    let mut output = [b'.'; 12];
    match field_numbers::write_number(&mut output, place, n) {
        Some(next) => print!(rt; "  next at {next}")?,
        None => print!(rt; "  no room")?,
    }
    print!(rt; ", digits {}  ", field_numbers::digit_count(n))?;
    rt.write_all(&output)
}

fn step(rt: &impl Print, piece: &[u8]) -> io::Result<()> {
    let text = sample_texts::from(piece, 1);
    match sample_texts::first_byte(piece) {
        b'f' => field(rt, read(text)),
        b'n' => worth(rt, field_numbers::number_of(text)),
        b's' => worth(rt, field_numbers::checksum_of(text)),
        b'+' => sum(rt, text),
        b'd' => digits(rt, sample_texts::number(text)),
        b'w' => written(
            rt,
            sample_texts::number_at(text, b',', 0),
            sample_texts::number_at(text, b',', 1) as usize,
        ),
        _ => saying::piece(rt, piece, b""),
    }
}

fn play(rt: &impl Print, script: &[u8]) -> io::Result<()> {
    for piece in script.split(|&byte| byte == b'\n') {
        step(rt, piece)?;
    }
    Ok(())
}

fn main(rt: HostRuntime) -> io::Result<()> {
    let mut script = scripts::room();
    let size = scripts::read(&mut rt.stdin(), &mut script)?;
    play(&rt, sample_texts::first(&script, size))
}
