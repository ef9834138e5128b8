// face_told: what a caller in another language is told of any answer: the rules' number, and the rest in four lent words.
// It takes answers apart and decides nothing.
#![tactic(auto)]

ghost use Rattle.std.specs.Prelude.{◌≡◌, ◌%◌, ◌^◌};
ghost use Rattle.message_rules.specs.Changes.{number_of_change};
ghost use Rattle.message_rules.specs.LookUps.{number_of_value, number_of_map};
ghost use Rattle.encode_rules.specs.Encode.{number_of_encoding, length_of_encoding};
ghost use Rattle.face_told.specs.Told.{told, part_numbered, told_map, told_value};

use encode_rules::Encoding;
use message_rules::{Change, FoundMap, FoundValue, Part};

fn low_word(n: usize) -> u32
    ensures { result ≡ n % 2 ^ 32 }
{
    (n & 0xffffffff) as u32
}

// Fills the four words: records, first value, second value, 0.
#[tactic(auto, unfolding(crate::specs::Told::told))]
pub fn tell(out: &mut [u32; 4], records: usize, first: usize, second: usize)
    ensures { out.new ≡ told records (first, second) }
{
    *out = [low_word(records), low_word(first), low_word(second), 0];
}

// A part by its number; every number other than 1 and 2 is the trailer.
#[tactic(auto, unfolding(crate::specs::Told::part_numbered))]
pub fn part_numbered(number: u8) -> Part
    ensures { result ≡ part_numbered number }
{
    match number {
        1 => Part::Header,
        2 => Part::Body,
        _ => Part::Trailer,
    }
}

// A change of a message: its number.
pub fn tell_change(out: &mut [u32; 4], change: Change) -> u32
    ensures { (result ≡ number_of_change change) × (out.new ≡ told 0 (0, 0)) }
{
    tell(out, 0, 0, 0);
    message_answers::change_number(change)
}

// An encoding: its number, and its length as the first value.
pub fn tell_encoding(out: &mut [u32; 4], encoding: Encoding) -> u32
    ensures { (result ≡ number_of_encoding encoding) × (out.new ≡ told 0 (length_of_encoding encoding, 0)) }
{
    tell(out, 0, message_answers::encoding_length(encoding), 0);
    message_answers::encoding_number(encoding)
}

// A map that was looked up: its number, how many were found, and its row as the first value.
#[tactic(auto, unfolding(crate::specs::Told::told_map, message_rules::specs::LookUps::number_of_map))]
pub fn tell_map(out: &mut [u32; 4], found: FoundMap) -> u32
    ensures { (result ≡ number_of_map found) × (out.new ≡ told_map found) }
{
    match found {
        FoundMap::NoMessage => {
            tell(out, 0, 0, 0);
            27
        }
        FoundMap::Absent => {
            tell(out, 0, 0, 0);
            0
        }
        FoundMap::At(row) => {
            tell(out, 1, row, 0);
            0
        }
    }
}

// A value that was looked up: its number, how many were found, and its place and length as values.
#[tactic(auto, unfolding(crate::specs::Told::told_value, message_rules::specs::LookUps::number_of_value))]
pub fn tell_value(out: &mut [u32; 4], found: FoundValue) -> u32
    ensures { (result ≡ number_of_value found) × (out.new ≡ told_value found) }
{
    match found {
        FoundValue::NoMessage => {
            tell(out, 0, 0, 0);
            27
        }
        FoundValue::Absent => {
            tell(out, 0, 0, 0);
            0
        }
        FoundValue::At(value) => {
            tell(out, 1, value.place, value.size);
            0
        }
    }
}
