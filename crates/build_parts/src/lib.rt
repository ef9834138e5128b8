// build_parts: header and trailer, read one field at a time, and what all parts share: a field's record, storing it.
// It keeps records through `build_records` only and knows nothing of layouts and groups; only the body and the builder call it.
#![tactic(auto)]

ghost use Rattle.std.specs.Prelude.{◌≡◌, ◌+◌, ◌≤◌, ◌<◌, ◌/◌, ◌^◌, length};
ghost use Rattle.build_records.specs.Records.{stride};
ghost use Rattle.field_rules.specs.Fields.{field, fields_from, Inside};
ghost use Rattle.field_rules.specs.Field.{field_at};
ghost use Rattle.dictionary_tables_rules.specs.Tags.{tags_found};
ghost use Rattle.build_parts.specs.Parts.{part_record, part_of, Kept, next_of, part_told, Stays};
ghost use Rattle.build_parts.specs.Header.{header_from};
ghost use Rattle.build_parts.specs.Trailer.{trailer_from, trailer_told, trailer_counts};

use build_answers::Answer;
use build_config::Config;
use build_records::Record;
use field_rules::{Cursor, Field};

const CHECKSUM: u32 = 10;

// How many fields may still be read, and how many records there are.
#[derive(Clone, Copy)]
pub struct Progress {
    pub room: usize,
    pub records: usize,
}

// The trailer stops at a CheckSum or where no field can be read; the number is that of all records.
#[derive(Clone, Copy)]
pub enum TrailerRead {
    Stopped(Field, usize),
    Unstopped(usize),
    TooManyFields,
}

// A field's record in one of the parts.
pub fn record_of(part: u32, field: Field) -> Record
    requires { (field.place < 2 ^ 32) × (field.length < 2 ^ 32) }
    ensures { result ≡ part_record part field }
{
    Record {
        part,
        depth: 0,
        number: 0,
        tag: field.tag,
        place: field.place as u32,
        length: field.length as u32,
    }
}

// Stores a record in the last map, whose records start at an index; answers how many records there are then.
pub fn keep(words: &mut [u32], from: usize, records: usize, stored: Record) -> usize
    requires { (from ≤ records) × (records < length words.old / stride) }
    ensures { Kept words.old words.new from records stored result }
{
    match build_records::store(words, records, from, records, stored) {
        Some(_) => records,
        None => records + 1,
    }
}

// The next field, where one can be read and there is room for it.
pub fn next_field(
    message: &[u8],
    config: Config,
    cursor: Cursor,
    room: usize,
) -> Result<Field, Answer>
    ensures { result ≡ next_of room (field_at config.mode message.now cursor) }
{
    match field_tagvalue::next_field(cursor, message, config.mode) {
        Err((cause, place)) => Err(Answer::Malformed(cause, place)),
        Ok(field) => {
            if room == 0 {
                return Err(Answer::TooManyFields);
            }
            Ok(field)
        }
    }
}

// The rest of the header, behind the fields that were verified.
pub fn read_header(
    message: &[u8],
    config: Config,
    header_tags: &[u16],
    cursor: Cursor,
    words: &mut [u32],
    progress: Progress,
) -> Result<(Field, Progress), Answer>
    requires { (length message.now < 2 ^ 32) × (progress.records + progress.room ≤ length words.old / stride) }
    ensures words_after { part_told config.mode message.now 0 result words.new ≡ header_from (tags_found header_tags.now) (fields_from config.mode message.now cursor) progress.room (part_of 0 progress.records words.old) }
    ensures stays { Stays message.now words.old words.new 0 progress.room result }
{
    let mut at = cursor;
    let mut room = progress.room;
    let mut records = progress.records;
    loop {
        match next_field(message, config, at, room) {
            Err(answer) => {
                return Err(answer);
            }
            Ok(field) => {
                room -= 1;
                if !dictionary_tables::holds(header_tags, field.tag) {
                    return Ok((field, Progress { room, records }));
                }
                records = keep(words, 0, records, record_of(build_records::HEADER, field));
                at = field.next;
            }
        }
    }
}

// The trailer, from the field that ended the body on. The verified CheckSum stands in it already, and counts where no other stops it.
pub fn read_trailer(
    message: &[u8],
    config: Config,
    first: Field,
    words: &mut [u32],
    from: usize,
    progress: Progress,
) -> TrailerRead
    requires { (length message.now < 2 ^ 32) × (Inside message.now first) × (from ≤ progress.records) × (progress.records + progress.room ≤ length words.old / stride) }
    ensures words_after { trailer_told result from words.new ≡ trailer_from (field first (fields_from config.mode message.now first.next)) (progress.room + 1) (part_of from progress.records words.old) }
    ensures from_bound { (from ≤ trailer_counts from result) × (trailer_counts from result ≤ progress.records + progress.room) }
    ensures words_unchanged { part_of 0 from words.new ≡ part_of 0 from words.old }
{
    let mut field = first;
    let mut room = progress.room;
    let mut records = progress.records;
    loop {
        let tag = field.tag;
        if tag == CHECKSUM {
            return TrailerRead::Stopped(field, records);
        }
        if room == 0 {
            return TrailerRead::TooManyFields;
        }
        room -= 1;
        records = keep(
            words,
            from,
            records,
            record_of(build_records::TRAILER, field),
        );
        let next = field.next;
        let Ok(read) = field_tagvalue::next_field(next, message, config.mode) else {
            return TrailerRead::Unstopped(records);
        };
        field = read;
    }
}
