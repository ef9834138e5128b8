// Body and trailer behind a header. The body is read by the table of its MsgType, the one that is kept or else the one that is laid from the records;
// then the trailer's tags are asked for, once, and the trailer is read.
ghost use Rattle.std.specs.Prelude.{◌≡◌, List, ℕ, suc, ◌≤◌, ◌<◌, ◌/◌, ◌^◌, length, replicate, Some, Ok};
ghost use Rattle.build_records.specs.Records.{record_words, record_room, stride};
ghost use Rattle.dictionary_rules.specs.Index.{tag_at};
ghost use Rattle.dictionary_layout_rules.specs.Tree.{holds_tag};
ghost use Rattle.dictionary_directory.specs.Directory.{tags_listed};
ghost use Rattle.field_rules.specs.Fields.{fields_from, Inside};
ghost use Rattle.build_group_rules.specs.Reading.{table_rules};
ghost use Rattle.build_required_rules.specs.Checking.{table_demands};
ghost use Rattle.dictionary_meaning_rules.specs.MessageTable.{placed_table};
ghost use Rattle.dictionary_chains.specs.Chain.{index_words};
ghost use Rattle.build_parts.specs.Parts.{ended, part_of, Ends, Stays};
ghost use Rattle.build_rules.specs.Beginning.{msg_type_record};
ghost use Rattle.build_rules.specs.Message.{after_body};
ghost use Rattle.builder.specs.Reading.{start_told, HeaderEnds, body_told, tags_kept, trailers_by, read_told};
ghost use Rattle.builder.specs.Through.{after_level, after_table, after_start};

use crate::{Headed, Read, Tags, showing};
use build_answers::Answer;
use build_config::Config;
use build_parts::{Progress, TrailerRead};
use build_records::Record;
use field_rules::Field;

const MSG_TYPE: u32 = 35;

// The body by a table, from the field that ended the header on. The header's records stay, whatever the answer is.
fn read_by_table(
    message: &[u8],
    config: Config,
    table: &[u16],
    index: &[u16],
    headed: Headed,
    words: &mut [u32],
) -> Result<(Field, Progress), Answer>
    requires { (length message.now < 2 ^ 32) × (length words.old ≡ record_words) × HeaderEnds message.now words.old headed × (length index.now ≡ index_words) }
    ensures by_index { (trailers : List ℕ) → body_told config.mode message.now headed result words.new trailers
        ≡ after_level trailers headed.stop (fields_from config.mode message.now headed.stop.next) headed.progress.room
        (part_of 0 headed.progress.records words.old) headed.checksum (table_rules config table.now (tag_at index.now))
        (table_demands table.now) 0 }
    ensures stays { Stays message.now words.old words.new headed.progress.records (suc headed.progress.room) result }
{
    let begun = headed.progress;
    let first = headed.stop;
    build_body::read_body(
        message,
        config,
        table,
        index,
        0,
        first,
        words,
        begun.records,
        begun,
    )
}

// MsgType is the value that was stored last under 35.
fn msg_type_of(words: &[u32], count: usize) -> Record
    requires { count ≤ length words.now / stride }
    ensures { result ≡ msg_type_record (part_of 0 count words.now) }
{
    for i in 0..count {
        let found = build_records::record_at(words, i);
        if found.tag == MSG_TYPE {
            return found;
        }
    }
    build_records::record_at(words, words.len())
}

// The body by the table that is laid here from the records for the message whose record stands at a place; where none can be laid, the dictionary has no
// such message.
fn read_laid(
    message: &[u8],
    config: Config,
    dictionary: &[u8],
    index: &[u16],
    opening: u16,
    msg_type: Record,
    headed: Headed,
    words: &mut [u32],
) -> Result<(Field, Progress), Answer>
    requires { (length message.now < 2 ^ 32) × (length words.old ≡ record_words) × HeaderEnds message.now words.old headed × (length index.now ≡ index_words) × (msg_type ≡ msg_type_record (part_of 0 headed.progress.records words.old)) }
    ensures by_index { (trailers : List ℕ) → body_told config.mode message.now headed result words.new trailers
        ≡ after_table trailers headed.stop (fields_from config.mode message.now headed.stop.next) headed.progress.room
        (part_of 0 headed.progress.records words.old) headed.checksum dictionary.now index.now config
        (placed_table dictionary.now index.now (Some opening) (replicate 4096 0)) }
    ensures stays { Stays message.now words.old words.new headed.progress.records (suc headed.progress.room) result }
{
    let mut table = [0u16; dictionary_directory::TABLE_WORDS];
    match dictionary_directory::lay_table(dictionary, index, opening, &mut table) {
        Some((_, size)) => read_by_table(message, config, &table[..size], index, headed, words),
        None => Err(Answer::InvalidMsgType(msg_type.place as usize, msg_type.length as usize)),
    }
}

// The body by the table that is kept for MsgType, or else by the one that is laid.
pub fn read_headed(
    message: &[u8],
    config: Config,
    dictionary: &[u8],
    index: &[u16],
    tables: &[u16],
    headed: Headed,
    words: &mut [u32],
) -> Result<(Field, Progress), Answer>
    requires { (length message.now < 2 ^ 32) × (length words.old ≡ record_words) × HeaderEnds message.now words.old headed × (length index.now ≡ index_words) }
    ensures by_index { (trailers : List ℕ) → body_told config.mode message.now headed result words.new trailers ≡ after_start dictionary.now index.now tables.now config message.now trailers (start_told config.mode message.now (Ok headed) words.old) }
    ensures stays { Stays message.now words.old words.new headed.progress.records (suc headed.progress.room) result }
{
    let progress = headed.progress;
    let msg_type = msg_type_of(words, progress.records);
    let place = msg_type.place as usize;
    let length = msg_type.length as usize;
    let placed = dictionary_flattening::place_of(index, &message[place..place + length]);
    let Some(opening) = placed else {
        return Err(Answer::InvalidMsgType(place, length));
    };
    let kept = dictionary_directory::table_at(tables, usize::from(opening));
    let Some((from, size)) = kept else {
        return read_laid(
            message, config, dictionary, index, opening, msg_type, headed, words,
        );
    };
    read_by_table(
        message,
        config,
        &tables[from..from + size],
        index,
        headed,
        words,
    )
}

// A tag is among those of a component, whose table is laid here.
fn is_listed(dictionary: &[u8], index: &[u16], number: u16, tag: u32) -> bool
    requires { length index.now ≡ index_words }
    ensures { result ≡ holds_tag tag (tags_listed dictionary.now index.now number) }
{
    let mut table = [0u16; dictionary_directory::TAG_WORDS];
    let size = dictionary_directory::lay_tags(dictionary, index, number, &mut table);
    dictionary_tables::holds(&table[..size], tag)
}

// A tag may follow the body: it is among the trailer's of the table that is kept, or else of component 1.
pub fn follows(dictionary: &[u8], index: &[u16], tables: &[u16], tags: Tags, tag: u32) -> bool
    requires { (length index.now ≡ index_words) × (tags ≡ tags_kept tables.now) }
    ensures { result ≡ holds_tag tag (trailers_by dictionary.now index.now tables.now tags) }
{
    match tags {
        Tags::Both(_, _, from, size) => dictionary_tables::holds(&tables[from..from + size], tag),
        Tags::Listed => is_listed(dictionary, index, 1, tag),
    }
}

// The trailer, from the field that ended the body on, which may follow it. The verified CheckSum stands first in it.
pub fn close(
    message: &[u8],
    config: Config,
    headed: Headed,
    first: Field,
    reached: Progress,
    words: &mut [u32],
) -> Read
    requires { (length message.now < 2 ^ 32) × (length words.old ≡ record_words) × (Inside message.now headed.checksum) × (Ends message.now words.old headed.progress.records (suc headed.progress.room) first reached) }
    ensures words_after { read_told result words.new ≡ after_body (part_of 0 headed.progress.records words.old) headed.checksum (ended first (fields_from config.mode message.now first.next) reached.room (part_of headed.progress.records reached.records words.old)) }
    ensures records_le_record_room { result.records ≤ record_room }
{
    let header = headed.progress;
    let from = reached.records;
    let checksum = build_parts::record_of(build_records::TRAILER, headed.checksum);
    let progress = Progress {
        room: reached.room,
        records: build_parts::keep(words, from, from, checksum),
    };
    match build_parts::read_trailer(message, config, first, words, from, progress) {
        TrailerRead::Stopped(stop, count) => Read {
            answer: Answer::Valid,
            stop: Some(stop),
            records: count,
        },
        TrailerRead::Unstopped(count) => Read {
            answer: Answer::Valid,
            stop: None,
            records: count,
        },
        TrailerRead::TooManyFields => showing::refused(Answer::TooManyFields, header.records),
    }
}
