// build_body: the body of a message, its fields and its repeating groups, between header and trailer.
// It reads through look-ups only and keeps records through `build_records` only; only the builder calls it.
#![tactic(auto)]

ghost use Rattle.std.specs.Prelude.{◌≡◌, List, ℕ, suc, ◌+◌, ◌≤◌, ◌<◌, ◌/◌, ◌^◌, length};
ghost use Rattle.dictionary_rules.specs.Index.{tag_at};
ghost use Rattle.dictionary_chains.specs.Chain.{index_words};
ghost use Rattle.field_rules.specs.Fields.{field, fields_from, Inside};
ghost use Rattle.build_records.specs.Records.{on_records, held_from, stored_between, stored, stride};
ghost use Rattle.build_group_rules.specs.Reading.{table_rules, answer_of};
ghost use Rattle.build_required_rules.specs.Checking.{table_demands};
ghost use Rattle.build_parts.specs.Parts.{part_record, part_of, Kept, part_told, Stays};
ghost use Rattle.build_body_rules.specs.Kinds.{meant_by, body_kind, run_from, body_of};
ghost use Rattle.build_body_rules.specs.Body.{next_from, with_run, must_follow, body_from, RunEnd, Dropped, Opened};
ghost use Rattle.build_body_rules.specs.Seen.{noted, Covers};

use build_answers::Answer;
use build_body_rules::{BodyKind, Opening};
use build_config::Config;
use build_group_rules::{Group, Refusal};
use build_parts::Progress;
use build_records::Record;
use build_required_rules::Lack;
use field_rules::Field;

// A tag's cell is its remainder. Where a cell isn't set, the body holds no field of its own with such a tag.
const CELLS: usize = 256;

// With validation off, unknown user-defined tags are the body's too.
fn kind_of(config: Config, table: &[u16], index: &[u16], level: usize, tag: u32) -> BodyKind
    requires { length index.now ≡ index_words }
    ensures { meant_by result ≡ body_kind (table_rules config table.now (tag_at index.now)) level tag }
{
    let Some((_, inner)) = dictionary_tables::item_of(table, level, tag) else {
        if build_groups::accepted(config, index, tag) {
            return BodyKind::Plain;
        }
        return BodyKind::Other;
    };
    if inner == 0 {
        return BodyKind::Plain;
    }
    BodyKind::Counts(inner)
}

// Stores a record in the last map, whose records start at an index. Groups can make that long, so it is looked through only where the tag's cell is set.
fn store(
    words: &mut [u32],
    seen: &mut [bool],
    from: usize,
    records: usize,
    stored: Record,
) -> Option<usize>
    requires records_in_bounds { (records < length words.old / stride) × (stored.depth ≡ 0) }
    requires covers { Covers seen.old (part_of from records words.old) }
    ensures value { result ≡ held_from from stored.depth stored.tag (part_of from records words.old) }
    ensures words_after { words.new ≡ on_records (stored_between records from records stored) words.old }
    ensures seen_after { seen.new ≡ noted stored.tag seen.old }
{
    let cell = stored.tag as usize % CELLS;
    if seen[cell] {
        return build_records::store(words, records, from, records, stored);
    }
    seen[cell] = true;
    build_records::replace(words, records, stored);
    None
}

// The same; answers how many records there are then.
fn keep(words: &mut [u32], seen: &mut [bool], from: usize, records: usize, stored: Record) -> usize
    requires from_le_records { (from ≤ records) × (records < length words.old / stride) × (stored.depth ≡ 0) }
    requires covers { Covers seen.old (part_of from records words.old) }
    ensures kept { Kept words.old words.new from records stored result }
    ensures seen_after { seen.new ≡ noted stored.tag seen.old }
{
    match store(words, seen, from, records, stored) {
        Some(_) => records,
        None => records + 1,
    }
}

// Stores a field of the body and reads the next.
fn read_plain(
    message: &[u8],
    config: Config,
    plain: Field,
    words: &mut [u32],
    seen: &mut [bool],
    from: usize,
    progress: Progress,
) -> Result<(Field, Progress), Answer>
    requires message_len_bound { (length message.now < 2 ^ 32) × (Inside message.now plain) × (from ≤ progress.records) × (progress.records + progress.room < length words.old / stride) }
    requires covers { Covers seen.old (part_of from progress.records words.old) }
    ensures words_after { part_told config.mode message.now from result words.new ≡ next_from (fields_from config.mode message.now plain.next) progress.room (stored (part_record 2 plain) (part_of from progress.records words.old)) }
    ensures stays { Stays message.now words.old words.new from progress.room result }
    ensures seen_after { seen.new ≡ noted plain.tag seen.old }
{
    let records = keep(
        words,
        seen,
        from,
        progress.records,
        build_parts::record_of(build_records::BODY, plain),
    );
    match build_parts::next_field(message, config, plain.next, progress.room) {
        Err(answer) => Err(answer),
        Ok(field) => Ok((
            field,
            Progress {
                room: progress.room - 1,
                records,
            },
        )),
    }
}

// A refusal of a run as the answer to the message.
fn answer_of(refusal: Refusal) -> Answer
    ensures { result ≡ answer_of refusal }
{
    match refusal {
        Refusal::Malformed(cause, place) => Answer::Malformed(cause, place),
        Refusal::TooManyFields => Answer::TooManyFields,
        Refusal::InvalidOrderInGroup(tag, group) => Answer::InvalidOrderInGroup(tag, group),
    }
}

// Where the run ends that starts at a place.
fn run_end(words: &[u32], place: usize, records: usize) -> usize
    requires { (place ≤ records) × (records ≤ length words.now / stride) }
    ensures { RunEnd words.now place records result }
{
    for end in place..records {
        let found = build_records::record_at(words, end);
        if found.depth == 0 {
            return end;
        }
    }
    records
}

// Takes the run out that starts at a place; answers how many records are left.
fn drop_run(words: &mut [u32], place: usize, records: usize) -> usize
    requires { (place ≤ records) × (records ≤ length words.old / stride) }
    ensures { Dropped words.old words.new place records result }
{
    let gone = run_end(words, place, records) - place;
    build_records::remove(words, records, place, gone);
    records - gone
}

// Stores a count in the last map, whose records start at an index, and makes way for its run. "A second run replaces the first."
fn open_run(
    words: &mut [u32],
    seen: &mut [bool],
    from: usize,
    records: usize,
    stored: Record,
) -> Opening
    requires from_le_records { (from ≤ records) × (records < length words.old / stride) × (stored.depth ≡ 0) }
    requires covers { Covers seen.old (part_of from records words.old) }
    ensures opened { Opened words.old words.new from records stored result }
    ensures seen_after { seen.new ≡ noted stored.tag seen.old }
{
    match store(words, seen, from, records, stored) {
        Some(i) => {
            let place = i + 1;
            Opening {
                records: drop_run(words, place, records),
                place,
            }
        }
        None => Opening {
            records: records + 1,
            place: records + 1,
        },
    }
}

// Stores a count and reads its run; the entries must hold their required fields.
fn read_group(
    message: &[u8],
    config: Config,
    table: &[u16],
    index: &[u16],
    inner: usize,
    count: Field,
    words: &mut [u32],
    seen: &mut [bool],
    from: usize,
    progress: Progress,
) -> Result<(Field, Progress), Answer>
    requires message_len_bound { (length message.now < 2 ^ 32) × (Inside message.now count) × (from ≤ progress.records) × (progress.records + progress.room < length words.old / stride) × (length words.old < 2 ^ 32) }
    requires index_len { length index.now ≡ index_words }
    requires covers { Covers seen.old (part_of from progress.records words.old) }
    ensures words_after { part_told config.mode message.now from result words.new
        ≡ with_run (part_record 2 count) (part_of from progress.records words.old)
        (run_from (table_rules config table.now (tag_at index.now)) (table_demands table.now) inner count.tag (fields_from config.mode message.now count.next) progress.room) }
    ensures stays { Stays message.now words.old words.new from progress.room result }
    ensures seen_after { seen.new ≡ noted count.tag seen.old }
{
    let opening = open_run(
        words,
        seen,
        from,
        progress.records,
        build_parts::record_of(build_records::BODY, count),
    );
    let group = Group {
        level: inner,
        tag: count.tag,
        depth: 1,
    };
    let start = build_group_rules::Progress {
        room: progress.room,
        records: opening.records,
        place: opening.place,
    };
    match build_groups::read_run(
        message, config, table, index, group, count.next, words, start,
    ) {
        Err(refusal) => Err(answer_of(refusal)),
        Ok((field, run)) => {
            match build_required::check_run(words, table, group, opening.place, run.place) {
                Lack::Missing(tag, group_tag) => Err(Answer::RequiredFieldMissing(tag, group_tag)),
                Lack::Complete => Ok((
                    field,
                    Progress {
                        room: run.room,
                        records: run.records,
                    },
                )),
            }
        }
    }
}

// Reads on from a field of the body up to the first other field. Whether that is a trailer tag is for the caller to ask.
fn read_on(
    message: &[u8],
    config: Config,
    table: &[u16],
    index: &[u16],
    level: usize,
    first: Field,
    words: &mut [u32],
    seen: &mut [bool],
    from: usize,
    progress: Progress,
) -> Result<(Field, Progress), Answer>
    requires message_len_bound { (length message.now < 2 ^ 32) × (Inside message.now first) × (from ≤ progress.records) × (progress.records + progress.room < length words.old / stride) × (length words.old < 2 ^ 32) }
    requires index_len { length index.now ≡ index_words }
    requires covers { Covers seen.old (part_of from progress.records words.old) }
    ensures by_index { (trailers : List ℕ) → must_follow trailers (part_told config.mode message.now from result words.new)
        ≡ body_from (body_of (table_rules config table.now (tag_at index.now)) (table_demands table.now) trailers level)
        (field first (fields_from config.mode message.now first.next)) (suc progress.room) (part_of from progress.records words.old) }
    ensures stays { Stays message.now words.old words.new from (suc progress.room) result }
{
    let mut reading = Ok((first, progress));
    loop {
        let Ok((field, so_far)) = reading else {
            return reading;
        };
        match kind_of(config, table, index, level, field.tag) {
            BodyKind::Plain => {
                reading = read_plain(message, config, field, words, seen, from, so_far);
            }
            BodyKind::Counts(inner) => {
                reading = read_group(
                    message, config, table, index, inner, field, words, seen, from, so_far,
                );
            }
            BodyKind::Other => {
                return Ok((field, so_far));
            }
        }
    }
}

// The body, from the field that ended the header on.
pub fn read_body(
    message: &[u8],
    config: Config,
    table: &[u16],
    index: &[u16],
    level: usize,
    first: Field,
    words: &mut [u32],
    from: usize,
    progress: Progress,
) -> Result<(Field, Progress), Answer>
    requires message_len_bound { (length message.now < 2 ^ 32) × (Inside message.now first) × (from ≤ progress.records) × (progress.records + progress.room < length words.old / stride) × (length words.old < 2 ^ 32) }
    requires index_len { length index.now ≡ index_words }
    ensures by_index { (trailers : List ℕ) → must_follow trailers (part_told config.mode message.now from result words.new)
        ≡ body_from (body_of (table_rules config table.now (tag_at index.now)) (table_demands table.now) trailers level)
        (field first (fields_from config.mode message.now first.next)) (suc progress.room) (part_of from progress.records words.old) }
    ensures stays { Stays message.now words.old words.new from (suc progress.room) result }
{
    // Which tags a body holds that was begun already isn't known: it may be any.
    let begun = from < progress.records;
    let mut cells = [begun; CELLS];
    let seen = &mut cells[..];
    read_on(
        message, config, table, index, level, first, words, seen, from, progress,
    )
}
