// build_answers: the answer to a message, with its number and the values returned with it. A new answer is one more case here.
// It reads nothing and decides nothing: whoever refuses says which answer it is.
#![tactic(auto)]

ghost use Rattle.std.specs.Prelude.{◌≡◌};
ghost use Rattle.build_integrity_rules.specs.Integrity.{number_of_reason};
ghost use Rattle.build_answers.specs.Answer.{number_of, values_of};

use build_integrity_rules::GarbledReason;
use dictionary_rules::Checked;
use field_rules::Cause;

// The answer to a message. Numbers are a tag and the tag of its group, or the place and length of a value.
#[derive(Clone, Copy)]
pub enum Answer {
    Valid,
    InvalidField(u32),
    InvalidOrderInGroup(u32, u32),
    InvalidMsgType(usize, usize),
    RequiredFieldMissing(u32, u32),
    Malformed(Cause, usize),
    Garbled(GarbledReason),
    TooLong,
    TooManyFields,
    InvalidSeparator,
    TooFewRecords,
    NotPrepared,
    BadDictionary(Checked),
}

// The values that are returned with an answer, 0 where there is none.
#[derive(Clone, Copy)]
pub struct Values {
    pub first: usize,
    pub second: usize,
}

// The rules' number for a reason why a message is garbled.
#[tactic(auto, unfolding(build_integrity_rules::specs::Integrity::number_of_reason))]
fn reason_number(reason: GarbledReason) -> u32
    ensures { result ≡ number_of_reason reason }
{
    match reason {
        GarbledReason::Malformed => 10,
        GarbledReason::InvalidBeginString => 11,
        GarbledReason::InvalidBodyLength => 12,
        GarbledReason::InvalidMsgType => 13,
        GarbledReason::InvalidChecksum => 14,
    }
}

// The rules' number for an answer.
#[tactic(auto, unfolding(crate::specs::Answer::number_of))]
pub fn number_of(answer: Answer) -> u32
    ensures { result ≡ number_of answer }
{
    match answer {
        Answer::Valid => 0,
        Answer::InvalidField(_) => 1,
        Answer::InvalidOrderInGroup(_, _) => 2,
        Answer::InvalidMsgType(_, _) => 3,
        Answer::RequiredFieldMissing(_, _) => 4,
        Answer::Malformed(_, _) => 10,
        Answer::Garbled(reason) => reason_number(reason),
        Answer::TooLong => 20,
        Answer::TooManyFields => 21,
        Answer::InvalidSeparator => 22,
        Answer::TooFewRecords => 23,
        Answer::NotPrepared => 27,
        Answer::BadDictionary(checked) => dictionary_check::number_of(checked),
    }
}

fn returned(first: usize, second: usize) -> Values
    ensures { result ≡ record { first = first; second = second } }
{
    Values { first, second }
}

// The values that are returned with an answer.
#[tactic(auto, unfolding(crate::specs::Answer::values_of))]
pub fn values_of(answer: Answer) -> Values
    ensures { (result.first, result.second) ≡ values_of answer }
{
    match answer {
        Answer::Valid => returned(0, 0),
        Answer::InvalidField(tag) => returned(tag as usize, 0),
        Answer::InvalidOrderInGroup(tag, group) => returned(tag as usize, group as usize),
        Answer::InvalidMsgType(place, length) => returned(place, length),
        Answer::RequiredFieldMissing(tag, group) => returned(tag as usize, group as usize),
        Answer::Malformed(_, _) => returned(0, 0),
        Answer::Garbled(_) => returned(0, 0),
        Answer::TooLong => returned(0, 0),
        Answer::TooManyFields => returned(0, 0),
        Answer::InvalidSeparator => returned(0, 0),
        Answer::TooFewRecords => returned(0, 0),
        Answer::NotPrepared => returned(0, 0),
        Answer::BadDictionary(checked) => returned(dictionary_check::value_of(checked) as usize, 0),
    }
}
