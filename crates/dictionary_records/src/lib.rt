// dictionary_records: stage one of a flat dictionary's check. It reads one record from the dictionary's bytes.
// It keeps nothing from record to record: whether a record may stand where it stands is decided above it.
#![tactic(auto)]

ghost use Rattle.std.specs.Prelude.{◌≡◌, true, false, ◌+◌, ◌≤◌, length, take, drop};
ghost use Rattle.dictionary_rules.specs.Record.{low_first, record_body_length, zero_filled, with_tag, with_mark, opens_message, record_body, record_at};

use dictionary_rules::{Record, RecordRead};

fn two(bytes: &[u8], at: usize) -> u16
    requires { at + 2 ≤ length bytes.now }
    ensures { result ≡ low_first (take 2 (drop at bytes.now)) }
{
    u16::from_le_bytes([bytes[at], bytes[at + 1]])
}

pub fn four(bytes: &[u8], at: usize) -> u32
    requires { at + 4 ≤ length bytes.now }
    ensures { result ≡ low_first (take 4 (drop at bytes.now)) }
{
    u32::from_le_bytes([bytes[at], bytes[at + 1], bytes[at + 2], bytes[at + 3]])
}

fn eight(bytes: &[u8]) -> u64
    requires { 8 ≤ length bytes.now }
    ensures { result ≡ low_first (take 8 bytes.now) }
{
    u64::from_le_bytes([
        bytes[0], bytes[1], bytes[2], bytes[3], bytes[4], bytes[5], bytes[6], bytes[7],
    ])
}

// No byte but zero comes after a zero.
fn zero_filled(text: &[u8]) -> bool
    ensures { result ≡ zero_filled false text.now }
{
    let mut ended = false;
    for &byte in text {
        if byte == 0 {
            ended = true;
        } else if ended {
            return false;
        }
    }
    true
}

fn body_length(kind: u8) -> usize
    ensures { result ≡ record_body_length kind }
{
    match kind {
        1 => 4,
        2 => 2,
        3 => 8,
        4 => 5,
        5 => 3,
        6 => 5,
        _ => 0,
    }
}

fn tagged(tag: u32, read: Record) -> Option<Record>
    ensures { result ≡ with_tag tag read }
{
    if tag == 0 {
        return None;
    }
    Some(read)
}

fn marked(mark: u8, body: Option<Record>) -> Option<Record>
    ensures { result ≡ with_mark mark body }
{
    if 1 < mark {
        return None;
    }
    body
}

fn message_of(body: &[u8]) -> Option<Record>
    requires { length body.now ≡ 8 }
    ensures { result ≡ opens_message body.now }
{
    if body[0] == 0 {
        return None;
    }
    if zero_filled(body) {
        return Some(Record::OpensMessage(eight(body)));
    }
    None
}

fn body_of(kind: u8, body: &[u8]) -> Option<Record>
    requires { length body.now ≡ record_body_length kind }
    ensures { result ≡ record_body kind body.now }
{
    match kind {
        1 => {
            let tag = four(body, 0);
            tagged(tag, Record::KnownTag(tag))
        }
        2 => Some(Record::OpensComponent(two(body, 0))),
        3 => message_of(body),
        4 => {
            let tag = four(body, 0);
            let mark = body[4];
            marked(mark, tagged(tag, Record::FieldItem(tag, mark == 1)))
        }
        5 => {
            let mark = body[2];
            marked(mark, Some(Record::ComponentItem(mark == 1, two(body, 0))))
        }
        6 => {
            let tag = four(body, 0);
            let mark = body[4];
            marked(mark, tagged(tag, Record::OpensGroup(tag, mark == 1)))
        }
        7 => Some(Record::Closes),
        _ => None,
    }
}

// The record that starts at a place of the dictionary.
pub fn record_at(dictionary: &[u8], place: usize) -> RecordRead
    ensures { result ≡ record_at dictionary.now place }
{
    if dictionary.len() <= place {
        return RecordRead::End;
    }
    let kind = dictionary[place];
    let size = body_length(kind);
    let start = place + 1;
    if dictionary.len() - start < size {
        return RecordRead::Bad;
    }
    let next = start + size;
    let Some(read) = body_of(kind, &dictionary[start..next]) else {
        return RecordRead::Bad;
    };
    RecordRead::Whole(read, next)
}
