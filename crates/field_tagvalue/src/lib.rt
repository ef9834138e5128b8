// field_tagvalue: the lowest layer. It finds bytes, reads tags, and reads one field at a cursor.
// It knows nothing of dictionaries, of messages as a whole or of any tag's meaning, and it demands nothing of its callers.
#![tactic(auto)]

ghost use Rattle.std.specs.Prelude.{◌≡◌, ℕ, ◌+◌, ◌<◌, ◌^◌, length, take, drop, Some, None};
ghost use Rattle.field_rules.specs.Find.{find_in};
ghost use Rattle.field_rules.specs.Number.{tag_of};
ghost use Rattle.field_rules.specs.Separator.{is_refused_separator};
ghost use Rattle.field_rules.specs.Field.{separated_by, start_at, field_from, field_at, value_of};
ghost use Rattle.field_tagvalue.specs.Tagged.{tagged_at};

use field_rules::{Cause, Cursor, Field, Mode, Unreadable};

// The first place of a byte from a place on.
fn find_from(bytes: &[u8], start: usize, wanted: u8) -> Option<usize>
    ensures { result ≡ find_in wanted start (drop start bytes.now) }
{
    for i in start..bytes.len() {
        if bytes[i] == wanted {
            return Some(i);
        }
    }
    None
}

// The first place of a byte.
pub fn find(bytes: &[u8], wanted: u8) -> Option<usize>
    ensures { result ≡ find_in wanted 0 bytes.now }
{
    find_from(bytes, 0, wanted)
}

// The text of a tag: digits worth 1 to 4,294,967,295.
pub fn tag_of(text: &[u8]) -> Option<u32>
    ensures { result ≡ tag_of text.now }
{
    let Some(worth) = field_numbers::number_of(text) else {
        return None;
    };
    if worth == 0 {
        return None;
    }
    Some(worth)
}

// 22: the separator is `=` or a digit.
#[tactic(auto, unfolding(field_rules::specs::Separator::is_refused_separator, field_rules::specs::Number::is_digit))]
pub fn is_refused_separator(separator: u8) -> bool
    ensures { result ≡ is_refused_separator separator }
{
    separator == b'=' || separator.is_ascii_digit()
}

// How fields are read where nothing but their separator is asked for.
pub fn separated_by(separator: u8) -> Mode
    ensures { result ≡ separated_by separator }
{
    Mode { separator }
}

// The cursor at a place.
pub fn start_at(at: usize) -> Cursor
    ensures { result ≡ start_at at }
{
    Cursor { at }
}

// The first `=` behind a text that is no tag.
fn untagged(rest: &[u8], from: usize) -> Option<(usize, u32)>
    requires rest_value { find_in 61 0 rest.now ≡ find_in 61 from (drop from rest.now) }
    requires by_index { (q : ℕ) → find_in 61 0 rest.now ≡ Some q → tag_of (take q rest.now) ≡ None }
    ensures { result ≡ tagged_at rest.now (find_in 61 0 rest.now) }
{
    let Some(equals) = find_from(rest, from, b'=') else {
        return None;
    };
    Some((equals, 0))
}

// The first `=`, and the tag before it: its digits are read on the way there, so that most texts are gone through once.
fn read_tag(rest: &[u8]) -> Option<(usize, u32)>
    ensures { result ≡ tagged_at rest.now (find_in 61 0 rest.now) }
{
    let mut tag: u64 = 0;
    for (i, &byte) in rest.iter().enumerate() {
        if byte == b'=' {
            return Some((i, tag as u32));
        }
        if !byte.is_ascii_digit() {
            return untagged(rest, i);
        }
        tag = tag * 10 + u64::from(byte - b'0');
        if 4294967295 < tag {
            return untagged(rest, i);
        }
    }
    None
}

// The field at the start of a part of the message; `at` is the part's place in the message.
fn field_from(at: usize, rest: &[u8], mode: Mode) -> Result<Field, Unreadable>
    requires { at + length rest.now < 2 ^ 63 }
    ensures { result ≡ field_from at mode rest.now }
{
    let Some((equals, tag)) = read_tag(rest) else {
        return Err((Cause::NoEquals, at));
    };
    let value = equals + 1;
    let Some(end) = find_from(rest, value, mode.separator) else {
        return Err((Cause::NoSeparator, at));
    };
    if tag == 0 {
        return Err((Cause::BadTag, at));
    }
    let next = start_at(at + end + 1);
    Ok(Field {
        first: at,
        tag,
        place: at + value,
        length: end - value,
        next,
    })
}

// The field that starts at a cursor.
pub fn next_field(cursor: Cursor, message: &[u8], mode: Mode) -> Result<Field, Unreadable>
    ensures { result ≡ field_at mode message.now cursor }
{
    let at = cursor.at;
    if message.len() < at {
        return Err((Cause::NoEquals, at));
    }
    field_from(at, &message[at..], mode)
}

// The bytes of a field's value. A field that was not read in this message has what lies within it.
pub fn value_of(message: &[u8], field: Field) -> &[u8]
    ensures { result.now ≡ value_of message.now field }
{
    let place = field.place;
    let length = field.length;
    if message.len() < place {
        return &message[..0];
    }
    let left = message.len() - place;
    if left < length {
        return &message[place..];
    }
    let end = place + length;
    &message[place..end]
}
