// Whether BodyLength and CheckSum are right, from the bytes, and what else keeps a text from being a frame (RULES.md, Hunting framer).
use crate::{fields, saying};
use field_rules::Field;
use std::io;

fn settled(rt: &impl Print, says: Option<u32>, is: usize) -> io::Result<()> {
    match says {
        Some(n) if n as usize == is => println!(rt; ": right"),
        _ => println!(rt; ": wrong"),
    }
}

// What a field says, the value alone.
fn says(rt: &impl Print, name: &str, value: &[u8]) -> io::Result<()> {
    print!(rt; "  {name} says ")?;
    saying::excerpt(rt, value)
}

// Whether a message of this BodyLength, whose field ends before `body`, is longer than a frame may be.
fn is_too_long(body: usize, says: Option<u32>) -> bool {
    let Some(n) = says else {
        return false;
    };
    8192 < body.wrapping_add(n as usize).wrapping_add(7)
}

fn limits(rt: &impl Print, body: usize, value: &[u8]) -> io::Result<()> {
    if is_too_long(body, field_numbers::number_of(value)) {
        println!(rt; "  a message of that BodyLength has more than 8,192 bytes")?;
    }
    if 5 < value.len() {
        println!(rt; "  BodyLength has more than five digits")?;
    }
    Ok(())
}

// BodyLength against the bytes from behind its field up to the CheckSum field.
fn body_length(
    rt: &impl Print,
    message: &[u8],
    field: Field,
    last: usize,
    whole: bool,
) -> io::Result<()> {
    let value = field_tagvalue::value_of(message, field);
    let body = fields::next_of(field);
    let is = last.saturating_sub(body);
    says(rt, "BodyLength", value)?;
    if last < message.len() {
        print!(rt; " and is {is}")?;
        settled(rt, field_numbers::number_of(value), is)?;
    } else if whole {
        println!(rt; ", and behind it stand {is} bytes")?;
    } else {
        println!(rt;)?;
    }
    limits(rt, body, value)
}

// CheckSum against the sum of all bytes before its field.
fn checksum(rt: &impl Print, message: &[u8], last: usize) -> io::Result<()> {
    let field = fields::field_at(message, last);
    let value = field_tagvalue::value_of(message, field);
    let sum = field_numbers::sum_of(sample_texts::first(message, last));
    says(rt, "CheckSum", value)?;
    print!(rt; " and is ")?;
    rt.write_all(&field_numbers::checksum_digits(sum))?;
    settled(rt, field_numbers::checksum_of(value), usize::from(sum))?;
    if !is_written(message, field, b"10=") {
        println!(rt; "  CheckSum is not written `10=`")?;
    }
    Ok(())
}

// Whether a field is one, and written with this tag.
fn is_written(message: &[u8], field: Field, tag: &[u8]) -> bool {
    field.tag != 0 && fields::text_of(message, field).starts_with(tag)
}

fn begin_string(rt: &impl Print, message: &[u8], field: Field) -> io::Result<()> {
    if !is_written(message, field, b"8=") {
        println!(rt; "  no BeginString (`8=`) as the first field")?;
        return Ok(());
    }
    let size = field_tagvalue::value_of(message, field).len();
    if size == 0 {
        println!(rt; "  BeginString is empty")?;
    }
    if 16 < size {
        println!(rt; "  BeginString has more than 16 bytes")?;
    }
    Ok(())
}

fn first_fields(rt: &impl Print, message: &[u8], last: usize, whole: bool) -> io::Result<()> {
    let first = fields::field_at(message, 0);
    let second = fields::field_at(message, fields::next_of(first));
    let third = fields::field_at(message, fields::next_of(second));
    begin_string(rt, message, first)?;
    if is_written(message, second, b"9=") {
        body_length(rt, message, second, last, whole)?;
    } else {
        println!(rt; "  no BodyLength (`9=`) as the second field")?;
    }
    if !is_written(message, third, b"35=") {
        println!(rt; "  no MsgType (`35=`) as the third field")?;
    }
    Ok(())
}

// A message whose CheckSum field stands at `last`, or that ends there and has none. `whole`: it was kept to its end.
pub fn judged(rt: &impl Print, message: &[u8], last: usize, whole: bool) -> io::Result<()> {
    first_fields(rt, message, last, whole)?;
    if last < message.len() {
        checksum(rt, message, last)?;
    } else if whole {
        println!(rt; "  no CheckSum field (10) up to here: cut off")?;
    } else {
        println!(rt; "  not kept up to its CheckSum field (10)")?;
    }
    Ok(())
}
