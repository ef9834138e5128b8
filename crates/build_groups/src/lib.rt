// build_groups: reading repeating groups. The run reader and the entry reader call each other, and the depth that is left falls.
// It reads through look-up tables only, counts fields by the room that is left for them, and never compares a count's value.
#![tactic(auto)]

ghost use Rattle.std.specs.Prelude.{◌≡◌, ◌<◌, ◌^◌, length};
ghost use Rattle.dictionary_rules.specs.Index.{tag_at};
ghost use Rattle.dictionary_chains.specs.Chain.{index_words};
ghost use Rattle.field_rules.specs.Field.{field_at};
ghost use Rattle.build_group_rules.specs.Groups.{entry_record};
ghost use Rattle.build_records.specs.Records.{on_records, inserted, stored_between};
ghost use Rattle.build_group_rules.specs.Reading.{accepted, opens_at, kind_at, meant, next_reading, further, makes, standing_in, told_by, run_of, entry_of, Fits, FitsAt};

use build_config::Config;
use build_group_rules::{Group, Kind, Progress, Refusal};
use build_records::Record;
use field_rules::{Cursor, Field};

// The first of the tags that users define.
const USER_DEFINED: u32 = 5000;

// With validation off, a user-defined tag that the dictionary lacks.
pub fn accepted(config: Config, index: &[u16], tag: u32) -> bool
    requires { length index.now ≡ index_words }
    ensures { result ≡ accepted config (tag_at index.now) tag }
{
    if config.validate || tag < USER_DEFINED {
        return false;
    }
    !dictionary_names::tag_known(index, tag)
}

// The tag is the level's delimiter.
pub fn opens(table: &[u16], level: usize, tag: u32) -> bool
    ensures { result ≡ opens_at table.now level tag }
{
    let Some(delimiter) = dictionary_tables::delimiter(table, level) else {
        return false;
    };
    delimiter == tag
}

fn kind_of(
    config: Config,
    table: &[u16],
    index: &[u16],
    group: Group,
    last: usize,
    tag: u32,
) -> Kind
    requires { length index.now ≡ index_words }
    ensures { meant result ≡ kind_at config table.now (tag_at index.now) group last tag }
{
    let level = group.level;
    if opens(table, level, tag) {
        return Kind::Ends;
    }
    let Some((position, inner)) = dictionary_tables::item_of(table, level, tag) else {
        if accepted(config, index, tag) {
            return Kind::Joins;
        }
        return Kind::Ends;
    };
    if position <= last {
        return Kind::Wrong;
    }
    if inner == 0 {
        return Kind::Plain(position);
    }
    if group.depth < build_group_rules::LEVELS {
        return Kind::Count(inner, position);
    }
    Kind::Plain(position)
}

// The next field, where one can be read and there is room for it. It stays apart from `build_parts::next_field`, since each counts and
// refuses in its reader's own words: one function would hand both kinds on, and be no plainer.
pub fn next_field(
    message: &[u8],
    config: Config,
    cursor: Cursor,
    progress: Progress,
) -> Result<(Field, Progress), Refusal>
    ensures { result ≡ next_reading (field_at config.mode message.now cursor) progress }
{
    match field_tagvalue::next_field(cursor, message, config.mode) {
        Err((cause, place)) => Err(Refusal::Malformed(cause, place)),
        Ok(field) => {
            if progress.room == 0 {
                return Err(Refusal::TooManyFields);
            }
            Ok((
                field,
                Progress {
                    room: progress.room - 1,
                    ..progress
                },
            ))
        }
    }
}

// The record of a field of the body that stands in an entry. It stays apart from `build_parts::record_of`: `entry_record` and
// `part_record` tell the two, and one function of four numbers would have to cite both, which is no plainer.
fn record_of(depth: u32, number: u32, field: Field) -> Record
    requires { (field.place < 2 ^ 32) × (field.length < 2 ^ 32) }
    ensures { result ≡ entry_record depth number field }
{
    Record {
        part: build_records::BODY,
        depth,
        number,
        tag: field.tag,
        place: field.place as u32,
        length: field.length as u32,
    }
}

// A new record, where the next one goes.
fn add(words: &mut [u32], progress: Progress, stored: Record) -> Progress
    requires { (progress.records < 2 ^ 32) × (progress.place < 2 ^ 32) }
    ensures value { result ≡ further 1 progress }
    ensures words_after { words.new ≡ on_records (inserted progress.records progress.place stored) words.old }
{
    build_records::insert(words, progress.records, progress.place, stored);
    Progress {
        records: progress.records + 1,
        place: progress.place + 1,
        ..progress
    }
}

// A record in the entry that starts at an index: over the one that holds its tag, or a new one.
fn join(words: &mut [u32], start: usize, progress: Progress, stored: Record) -> Progress
    requires { (progress.records < 2 ^ 32) × (progress.place < 2 ^ 32) }
    ensures value { result ≡ further (makes (standing_in start progress.place stored words.old)) progress }
    ensures words_after { words.new ≡ on_records (stored_between progress.records start progress.place stored) words.old }
{
    match build_records::store(words, progress.records, start, progress.place, stored) {
        Some(_) => progress,
        None => Progress {
            records: progress.records + 1,
            place: progress.place + 1,
            ..progress
        },
    }
}

// The entries of a group, from the field behind its count on.
#[cycle(reading)]
pub fn read_run(
    message: &[u8],
    config: Config,
    table: &[u16],
    index: &[u16],
    group: Group,
    cursor: Cursor,
    words: &mut [u32],
    progress: Progress,
) -> Result<(Field, Progress), Refusal>
    requires fits { Fits message.now progress }
    requires index_len { length index.now ≡ index_words }
    ensures { told_by config.mode message.now result words.new ≡ run_of message.now config table.now (tag_at index.now) group cursor progress words.old }
{
    let mut reading = next_field(message, config, cursor, progress);
    let mut number: u32 = 0;
    loop {
        let Ok((field, so_far)) = reading else {
            return reading;
        };
        if !opens(table, group.level, field.tag) {
            if number == 0 {
                return Err(Refusal::InvalidOrderInGroup(field.tag, group.tag));
            }
            return Ok((field, so_far));
        }
        number += 1;
        reading = read_entry(
            message, config, table, index, group, number, field, words, so_far,
        );
    }
}

// One entry, from its delimiter on.
#[cycle(reading)]
pub fn read_entry(
    message: &[u8],
    config: Config,
    table: &[u16],
    index: &[u16],
    group: Group,
    number: u32,
    delimiter: Field,
    words: &mut [u32],
    progress: Progress,
) -> Result<(Field, Progress), Refusal>
    requires fits_at { FitsAt message.now delimiter progress }
    requires index_len { length index.now ≡ index_words }
    ensures { told_by config.mode message.now result words.new ≡ entry_of message.now config table.now (tag_at index.now) group number delimiter progress words.old }
{
    let start = progress.place;
    let begun = add(words, progress, record_of(group.depth, number, delimiter));
    let mut reading = next_field(message, config, delimiter.next, begun);
    let mut last: usize = 0;
    loop {
        let Ok((field, so_far)) = reading else {
            return reading;
        };
        let next = field.next;
        let record = record_of(group.depth, number, field);
        match kind_of(config, table, index, group, last, field.tag) {
            Kind::Plain(position) => {
                let stored = add(words, so_far, record);
                reading = next_field(message, config, next, stored);
                last = position;
            }
            Kind::Count(level, position) => {
                let stored = add(words, so_far, record);
                let nested = Group {
                    level,
                    tag: field.tag,
                    depth: group.depth + 1,
                };
                reading = read_run(message, config, table, index, nested, next, words, stored);
                last = position;
            }
            Kind::Joins => {
                let stored = join(words, start, so_far, record);
                reading = next_field(message, config, next, stored);
            }
            Kind::Wrong => {
                return Err(Refusal::InvalidOrderInGroup(field.tag, group.tag));
            }
            Kind::Ends => {
                return Ok((field, so_far));
            }
        }
    }
}
