// face_messages: a build and a taking over as a caller in another language asks for them, over records of twelve bytes that the caller lends.
// It takes records apart and decides nothing; `gateway` lends what the caller lent.
#![tactic(auto)]

ghost use Rattle.std.specs.Prelude.{◌≡◌, ◌*◌, ◌%◌, ◌^◌, ◌≤◌, take, replicate};
ghost use Rattle.message_take_over.specs.Taking.{taking_over};
ghost use Rattle.build_records.specs.Records.{on_records, replaced, record_words, stride};
ghost use Rattle.builder.specs.Build.{build_of};
ghost use Rattle.builder.specs.Through.{build_over};
ghost use Rattle.build_answers.specs.Answer.{number_of, values_of};
ghost use Rattle.build_config.specs.Settings.{config_of};
ghost use Rattle.face_told.specs.Told.{told, taking_number, taken_words, taken_values};
ghost use Rattle.face_messages.specs.Lent.{field_record_at, shown_of, told_of, record_of_lent, read_count};

use build_records::Record;
use builder::Built;

// A record as it is lent: twelve bytes. Depth and entry are 0 outside groups, else they start from 1.
#[repr(C)]
#[derive(Clone, Copy)]
pub struct FieldRecord {
    pub part: u8,
    pub depth: u8,
    pub entry: u16,
    pub tag: u32,
    pub place: u16,
    pub length: u16,
}

// What is told of a build: its number, how many records it shows, and over how many of the lent ones is written.
#[derive(Clone, Copy)]
pub struct Shown {
    pub number: u32,
    pub records: usize,
    pub written: usize,
}

fn low_half(n: u32) -> u16
    ensures { result ≡ n % 2 ^ 16 }
{
    (n & 0xffff) as u16
}

fn low_byte(n: u32) -> u8
    ensures { result ≡ n % 2 ^ 8 }
{
    (n & 0xff) as u8
}

// Record i of the words, of which so many are shown; past them there are only blank ones.
#[tactic(auto, unfolding(crate::specs::Lent::field_record_at, crate::specs::Lent::field_of))]
pub fn field_at(words: &[u32; build_records::WORDS], shown: usize, i: usize) -> FieldRecord
    ensures { result ≡ field_record_at words.now shown i }
{
    if shown <= i {
        return FieldRecord {
            part: 0,
            depth: 0,
            entry: 0,
            tag: 0,
            place: 0,
            length: 0,
        };
    }
    let kept = build_records::record_at(&words[..], i);
    FieldRecord {
        part: low_byte(kept.part),
        depth: low_byte(kept.depth),
        entry: low_half(kept.number),
        tag: kept.tag,
        place: low_half(kept.place),
        length: low_half(kept.length),
    }
}

// Words for a build's records.
pub fn blank_words() -> [u32; build_records::WORDS]
    ensures { result ≡ replicate record_words 0 }
{
    [0; build_records::WORDS]
}

// Tells what a build answered.
fn tell_built(built: Built, out: &mut [u32; 4]) -> Shown
    ensures value { result ≡ record { number = number_of built.answer; records = built.records; written = built.written } }
    ensures out_after { out.new ≡ told built.records (values_of built.answer) }
{
    let values = build_answers::values_of(built.answer);
    face_told::tell(out, built.records, values.first, values.second);
    Shown {
        number: build_answers::number_of(built.answer),
        records: built.records,
        written: built.written,
    }
}

// Builds a message from its bytes, with its records in the words, and tells the answer. So many records are lent to be filled from them.
pub fn build(
    message: &[u8],
    separator: u8,
    settings: u32,
    dictionary: &[u8],
    lent: usize,
    words: &mut [u32; build_records::WORDS],
    out: &mut [u32; 4],
) -> Shown
    ensures { (result ≡ shown_of (build_of message.now (config_of settings separator) dictionary.now lent words.old))
        × (words.new ≡ (build_of message.now (config_of settings separator) dictionary.now lent words.old).words)
        × (out.new ≡ told_of (build_of message.now (config_of settings separator) dictionary.now lent words.old)) }
{
    let config = build_config::config_of(settings, separator);
    tell_built(
        builder::build(message, config, dictionary, lent, words),
        out,
    )
}

// Builds a message over memory that a dictionary was prepared in, and tells the answer. Of the words only the records that are shown are the
// caller's to read.
pub fn build_prepared(
    message: &[u8],
    separator: u8,
    settings: u32,
    copy: &[u8],
    memory: &[u16],
    lent: usize,
    words: &mut [u32; build_records::WORDS],
    out: &mut [u32; 4],
) -> Shown
    ensures { (result ≡ shown_of (build_over message.now (config_of settings separator) copy.now memory.now lent words.old))
        × (take (stride * result.records) words.new ≡ take (stride * result.records) (build_over message.now (config_of settings separator) copy.now memory.now lent words.old).words)
        × (out.new ≡ told_of (build_over message.now (config_of settings separator) copy.now memory.now lent words.old)) }
{
    let config = build_config::config_of(settings, separator);
    tell_built(
        builder::build_unblanked(message, config, copy, memory, lent, words),
        out,
    )
}

// A lent record as record i of the words.
#[tactic(auto, unfolding(crate::specs::Lent::record_of_lent))]
pub fn put_field(words: &mut [u32; build_records::WORDS], i: usize, field: FieldRecord)
    ensures { words.new ≡ on_records (replaced i (record_of_lent field)) words.old }
{
    let record = Record {
        part: u32::from(field.part),
        depth: u32::from(field.depth),
        number: u32::from(field.entry),
        tag: field.tag,
        place: u32::from(field.place),
        length: u32::from(field.length),
    };
    build_records::replace(&mut words[..], i, record);
}

// How many of the lent records are read for a count of them: so many, or none where there are not so many or they are over 1,024.
#[tactic(auto, unfolding(crate::specs::Lent::read_count))]
pub fn read_count(lent: usize, count: usize) -> usize
    ensures { result ≡ read_count lent count }
{
    if lent < count || 1024 < count {
        return 0;
    }
    count
}

// Takes the records that stand in the words over into a lent message, and tells the answer. So many records were read.
pub fn take_over(
    laid: &[u32; build_records::WORDS],
    read: usize,
    count: usize,
    message: &[u8],
    words: &mut [u32],
    values: &mut [u8],
    out: &mut [u32; 4],
) -> u32
    requires { read ≤ 1024 }
    ensures { (result ≡ taking_number (taking_over (take (stride * read) laid.now) count message.now words.old values.old))
        × (words.new ≡ taken_words (taking_over (take (stride * read) laid.now) count message.now words.old values.old))
        × (values.new ≡ taken_values (taking_over (take (stride * read) laid.now) count message.now words.old values.old))
        × (out.new ≡ told 0 (0, 0)) }
{
    face_told::tell(out, 0, 0, 0);
    let end = build_records::STRIDE * read;
    let records = &laid[..];
    let taken = message_take_over::take_over(&records[..end], count, message, words, values);
    message_answers::taken_number(taken)
}
