// builder: from a message's bytes to its answer and its records: integrity, header, MsgType's layout, body and trailer in turn.
// It reads a dictionary through its records, the index and the tables that are kept, whatever they hold, and keeps records through `build_records` only.
// A build checks its dictionary and then reads; a build over memory that a dictionary was prepared in reads at once. There is one path of reading.
#![tactic(auto)]

mod beginning;
mod finishing;
mod showing;

ghost use Rattle.std.specs.Prelude.{◌≡◌, ◌≤◌, ◌<◌, ◌^◌, length, None};
ghost use Rattle.build_records.specs.Records.{record_words, record_room};
ghost use Rattle.dictionary_chains.specs.Chain.{index_words};
ghost use Rattle.builder.specs.Reading.{tags_kept, read_told};
ghost use Rattle.builder.specs.Build.{shown, shown_words, checked_read, first_refusal, build_of, built_told};
ghost use Rattle.builder.specs.Through.{message_through, build_over};
ghost use Rattle.dictionary_rules.specs.Check.{check_of};

use build_answers::Answer;
use build_config::Config;
use build_parts::Progress;
use field_rules::Field;

// A header that was read: the field that ended it, how far reading has come, and the verified CheckSum.
#[derive(Clone, Copy)]
pub struct Headed {
    pub stop: Field,
    pub progress: Progress,
    pub checksum: Field,
}

// Where the tables of the header's tags and of the trailer's start, each with how many words it has; or both are listed of the records.
#[derive(Clone, Copy)]
pub enum Tags {
    Both(usize, usize, usize, usize),
    Listed,
}

// What was read: the answer, the CheckSum that stopped the trailer, and how many records are shown.
#[derive(Clone, Copy)]
pub struct Read {
    pub answer: Answer,
    pub stop: Option<Field>,
    pub records: usize,
}

// What a build answers: so many records are shown, and over so many of the lent ones is written, all of them or none.
#[derive(Clone, Copy)]
pub struct Built {
    pub answer: Answer,
    pub stop: Option<Field>,
    pub records: usize,
    pub written: usize,
}

// Both tables of tags that are kept, or none.
fn tags_of(tables: &[u16]) -> Tags
    ensures { result ≡ tags_kept tables.now }
{
    let Some((header, headers)) = dictionary_directory::tags_at(tables, 0) else {
        return Tags::Listed;
    };
    let Some((trailer, trailers)) = dictionary_directory::tags_at(tables, 1) else {
        return Tags::Listed;
    };
    Tags::Both(header, headers, trailer, trailers)
}

// Reads a message through a dictionary's records, the index that its check left and the tables that are kept, whatever they hold. What a phase lays is
// gone before the next one begins.
fn read_message(
    message: &[u8],
    config: Config,
    dictionary: &[u8],
    index: &[u16],
    tables: &[u16],
    words: &mut [u32],
) -> Read
    requires { (length message.now < 2 ^ 32) × (length words.old ≡ record_words) × (length index.now ≡ index_words) }
    ensures words_after { read_told result words.new ≡ message_through dictionary.now index.now tables.now config message.now }
    ensures records_le_record_room { result.records ≤ record_room }
{
    let tags = tags_of(tables);
    match beginning::begin_by(message, config, dictionary, index, tables, tags, words) {
        Err(answer) => showing::refused(answer, 0),
        Ok(headed) => {
            let header = headed.progress;
            match finishing::read_headed(
                message, config, dictionary, index, tables, headed, words,
            ) {
                Err(answer) => showing::refused(answer, header.records),
                Ok((first, reached)) => {
                    if finishing::follows(dictionary, index, tables, tags, first.tag) {
                        return finishing::close(message, config, headed, first, reached, words);
                    }
                    showing::refused(Answer::InvalidField(first.tag), header.records)
                }
            }
        }
    }
}

// The dictionary is checked, and then the message is read by it.
fn read_checked(message: &[u8], config: Config, dictionary: &[u8], words: &mut [u32]) -> Read
    requires { (length message.now < 2 ^ 32) × (length words.old ≡ record_words) }
    ensures words_after { read_told result words.new ≡ checked_read message.now config dictionary.now (check_of dictionary.now) }
    ensures records_le_record_room { result.records ≤ record_room }
{
    let mut index = [0u16; dictionary_chains::WORDS];
    let checked = dictionary_check::prepare(dictionary, &mut index);
    if dictionary_check::number_of(checked) != 0 {
        return showing::refused(Answer::BadDictionary(checked), 0);
    }
    // Nothing is kept of a dictionary that is checked for one message.
    let none = [0u16; 0];
    read_message(message, config, dictionary, &index[..], &none[..], words)
}

// Nothing was written over the lent records.
fn untouched(answer: Answer) -> Built
    ensures { result ≡ record { answer = answer; stop = None; records = 0; written = 0 } }
{
    Built {
        answer,
        stop: None,
        records: 0,
        written: 0,
    }
}

// What was read, as the answer of a build that writes over all that are lent.
fn answered(read: Read, lent: usize) -> Built
    ensures { result ≡ record { answer = read.answer; stop = read.stop; records = read.records; written = lent } }
{
    let answer = read.answer;
    let stop = read.stop;
    Built {
        answer,
        stop,
        records: read.records,
        written: lent,
    }
}

// What was read, shown: blank records behind its own, over all that are lent.
fn show(read: Read, lent: usize, words: &mut [u32]) -> Built
    requires { (length words.old ≡ record_words) × (read.records ≤ record_room) }
    ensures { built_told result words.new ≡ shown lent (read_told read words.old) }
{
    showing::blank(words, read.records);
    answered(read, lent)
}

// What is refused before anything is read: 22, 23, 20. Valid: nothing is.
fn refused_first(message: &[u8], config: Config, lent: usize) -> Answer
    ensures { result ≡ first_refusal message.now config lent }
{
    if field_tagvalue::is_refused_separator(config.mode.separator) {
        return Answer::InvalidSeparator;
    }
    if lent < 1024 {
        return Answer::TooFewRecords;
    }
    if 8192 < message.len() {
        return Answer::TooLong;
    }
    Answer::Valid
}

// Builds a message from its bytes: its answer, and its records in the words. So many records are lent to be filled from them.
pub fn build(
    message: &[u8],
    config: Config,
    dictionary: &[u8],
    lent: usize,
    words: &mut [u32; build_records::WORDS],
) -> Built
    ensures { built_told result words.new ≡ build_of message.now config dictionary.now lent words.old }
{
    // Only where the array is made a slice does the proof learn its length.
    let records = &mut words[..];
    let first = refused_first(message, config, lent);
    if build_answers::number_of(first) != 0 {
        return untouched(first);
    }
    let read = read_checked(message, config, dictionary, records);
    show(read, lent, records)
}

// Builds a message over memory that a dictionary was prepared in. What the words hold behind the records that are shown is left to the caller, who
// may look at these alone.
pub fn build_unblanked(
    message: &[u8],
    config: Config,
    copy: &[u8],
    memory: &[u16],
    lent: usize,
    words: &mut [u32; build_records::WORDS],
) -> Built
    ensures words_after { built_told result (shown_words result words.new) ≡ build_over message.now config copy.now memory.now lent words.old }
    ensures records_le_record_room { (result.records ≤ record_room) × (length words.new ≡ record_words) }
{
    let records = &mut words[..];
    if !dictionary_prepared::is_prepared(copy, memory) {
        return untouched(Answer::NotPrepared);
    }
    let first = refused_first(message, config, lent);
    if build_answers::number_of(first) != 0 {
        return untouched(first);
    }
    let size = usize::from(memory[2]);
    let index = &memory[dictionary_prepared::FRONT..dictionary_prepared::HEAD];
    let tables = &memory[dictionary_prepared::HEAD..];
    let read = read_message(message, config, &copy[..size], index, tables, records);
    answered(read, lent)
}

// Builds a message as `build` does, over memory that a dictionary was prepared in. It takes no dictionary and checks none.
pub fn build_prepared(
    message: &[u8],
    config: Config,
    copy: &[u8],
    memory: &[u16],
    lent: usize,
    words: &mut [u32; build_records::WORDS],
) -> Built
    ensures { built_told result words.new ≡ build_over message.now config copy.now memory.now lent words.old }
{
    let built = build_unblanked(message, config, copy, memory, lent, words);
    if built.written != 0 {
        showing::blank(&mut words[..], built.records);
    }
    built
}
