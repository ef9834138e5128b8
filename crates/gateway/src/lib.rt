// gateway: the public face for programs in other languages. Each export calls one core over what the caller lends and tells its answer: the
// number is returned, the rest stands in four lent words. Nothing is decided here, and nothing is kept: all state is lent.
#![tactic(auto)]

pub mod building;
pub mod finding;
pub mod framers;
pub mod messages;
pub mod taking_over;

ghost use Rattle.message_maps.specs.Rows.{message_words};
ghost use Rattle.std.specs.Prelude.{◌≡◌};

// How many records a build wants lent at the least, and how many fields a message has at the most.
pub fn gateway_most_records() -> u32
    ensures { result ≡ 1024 }
{
    1024
}

// A message, an encoding and a frame at the most; the output of a take at the least; the values of a lent message.
pub fn gateway_most_message_bytes() -> u32
    ensures { result ≡ 8192 }
{
    8192
}

// A framer's store.
pub fn gateway_store_bytes() -> u32
    ensures { result ≡ 16384 }
{
    16384
}

// A flat dictionary at the most.
pub fn gateway_most_dictionary_bytes() -> u32
    ensures { result ≡ 60000 }
{
    60000
}

// The words of a lent message.
pub fn gateway_message_words() -> u32
    ensures { result ≡ message_words }
{
    message_maps::WORDS as u32
}
