// Integrity and header, by the header's tags of the table that is kept, or else by those that are listed of the records.
ghost use Rattle.std.specs.Prelude.{◌≡◌, ◌≤◌, ◌<◌, ◌/◌, ◌^◌, length};
ghost use Rattle.build_records.specs.Records.{record_words, stride};
ghost use Rattle.dictionary_chains.specs.Chain.{index_words};
ghost use Rattle.dictionary_tables_rules.specs.Tags.{tags_found};
ghost use Rattle.dictionary_directory.specs.Directory.{tags_listed};
ghost use Rattle.build_parts.specs.Parts.{part_of};
ghost use Rattle.build_rules.specs.Beginning.{verified_records, start_of};
ghost use Rattle.builder.specs.Reading.{VerifiedInside, start_told, Begins, tags_kept, headers_by};

use crate::{Headed, Tags};
use build_answers::Answer;
use build_config::Config;
use build_integrity_rules::Verified;
use build_parts::Progress;

// How many fields may be read behind the three that are verified: a 1,025th is too many.
const ROOM: usize = 1021;

// The fields that were verified stand first in the header; answers how many records they make.
fn keep_verified(words: &mut [u32], verified: Verified) -> usize
    requires { (3 ≤ length words.old / stride) × VerifiedInside verified }
    ensures { (part_of 0 result words.new ≡ verified_records verified) × (result ≤ 3) }
{
    let begin_string = build_parts::record_of(build_records::HEADER, verified.begin_string);
    let body_length = build_parts::record_of(build_records::HEADER, verified.body_length);
    let msg_type = build_parts::record_of(build_records::HEADER, verified.msg_type);
    let first = build_parts::keep(words, 0, 0, begin_string);
    let second = build_parts::keep(words, 0, first, body_length);
    build_parts::keep(words, 0, second, msg_type)
}

// Integrity, and the header behind the fields that it verified.
fn begin(
    message: &[u8],
    config: Config,
    header_tags: &[u16],
    words: &mut [u32],
) -> Result<Headed, Answer>
    requires { (length message.now < 2 ^ 32) × (length words.old ≡ record_words) }
    ensures words_after { start_told config.mode message.now result words.new ≡ start_of (tags_found header_tags.now) config message.now }
    ensures begins { Begins message.now words.new result }
{
    match build_integrity::verify(message, config.mode) {
        Err(reason) => Err(Answer::Garbled(reason)),
        Ok(verified) => {
            let msg_type = verified.msg_type;
            let behind = msg_type.next;
            let checksum = verified.checksum;
            let kept = Progress {
                room: ROOM,
                records: keep_verified(words, verified),
            };
            match build_parts::read_header(message, config, header_tags, behind, words, kept) {
                Err(answer) => Err(answer),
                Ok((stop, progress)) => Ok(Headed {
                    stop,
                    progress,
                    checksum,
                }),
            }
        }
    }
}

// With the tags of component 0, whose table is laid here.
fn begin_listed(
    message: &[u8],
    config: Config,
    dictionary: &[u8],
    index: &[u16],
    words: &mut [u32],
) -> Result<Headed, Answer>
    requires { (length message.now < 2 ^ 32) × (length words.old ≡ record_words) × (length index.now ≡ index_words) }
    ensures words_after { start_told config.mode message.now result words.new ≡ start_of (tags_listed dictionary.now index.now 0) config message.now }
    ensures begins { Begins message.now words.new result }
{
    let mut table = [0u16; dictionary_directory::TAG_WORDS];
    let size = dictionary_directory::lay_tags(dictionary, index, 0, &mut table);
    begin(message, config, &table[..size], words)
}

// With the table that is kept, or else with the one that is laid.
pub fn begin_by(
    message: &[u8],
    config: Config,
    dictionary: &[u8],
    index: &[u16],
    tables: &[u16],
    tags: Tags,
    words: &mut [u32],
) -> Result<Headed, Answer>
    requires { (length message.now < 2 ^ 32) × (length words.old ≡ record_words) × (length index.now ≡ index_words) × (tags ≡ tags_kept tables.now) }
    ensures words_after { start_told config.mode message.now result words.new ≡ start_of (headers_by dictionary.now index.now tables.now tags) config message.now }
    ensures begins { Begins message.now words.new result }
{
    match tags {
        Tags::Both(from, size, _, _) => begin(message, config, &tables[from..from + size], words),
        Tags::Listed => begin_listed(message, config, dictionary, index, words),
    }
}
