// message_answers: the rules' numbers of what the calls on a message answer, and the length that an encoding returns.
// It reads nothing and decides nothing: whoever refuses says which answer it is.
#![tactic(auto)]

ghost use Rattle.std.specs.Prelude.{◌≡◌};
ghost use Rattle.message_rules.specs.Changes.{number_of_change};
ghost use Rattle.message_take_over.specs.Taking.{number_of_taken};
ghost use Rattle.encode_rules.specs.Encode.{number_of_encoding, length_of_encoding};

use encode_rules::Encoding;
use message_rules::Change;
use message_take_over::Taken;

#[tactic(auto, unfolding(message_rules::specs::Changes::number_of_change))]
pub fn change_number(change: Change) -> u32
    ensures { result ≡ number_of_change change }
{
    match change {
        Change::Made => 0,
        Change::NoMessage => 27,
        Change::NotStorable => 41,
        Change::NoRun => 42,
        Change::TooManyFields => 21,
    }
}

#[tactic(auto, unfolding(message_take_over::specs::Taking::number_of_taken))]
pub fn taken_number(taken: Taken) -> u32
    ensures { result ≡ number_of_taken taken }
{
    match taken {
        Taken::Made => 0,
        Taken::NoMessage => 27,
    }
}

#[tactic(auto, unfolding(encode_rules::specs::Encode::number_of_encoding))]
pub fn encoding_number(encoding: Encoding) -> u32
    ensures { result ≡ number_of_encoding encoding }
{
    match encoding {
        Encoding::Written(_) => 0,
        Encoding::NoMessage => 27,
        Encoding::InvalidSeparator => 22,
        Encoding::Incomplete => 43,
        Encoding::TooLong => 20,
        Encoding::TooManyFields => 21,
        Encoding::NoRoom => 23,
    }
}

// How many bytes were written, 0 where it was refused.
#[tactic(auto, unfolding(encode_rules::specs::Encode::length_of_encoding))]
pub fn encoding_length(encoding: Encoding) -> usize
    ensures { result ≡ length_of_encoding encoding }
{
    match encoding {
        Encoding::Written(length) => length,
        Encoding::NoMessage => 0,
        Encoding::InvalidSeparator => 0,
        Encoding::Incomplete => 0,
        Encoding::TooLong => 0,
        Encoding::TooManyFields => 0,
        Encoding::NoRoom => 0,
    }
}
