// gateway_c: the operations of `gateway` for C, one export to each, under its name and with its clauses. Nothing is said or decided here.
#![tactic(auto)]

pub mod building;
pub mod finding;
pub mod framers;
pub mod messages;
pub mod taking_over;

ghost use Rattle.message_maps.specs.Rows.{message_words};
ghost use Rattle.std.specs.Prelude.{◌≡◌};

// How many records a build wants lent at the least, and how many fields a message has at the most.
#[unsafe(no_mangle)]
pub extern "C" fn gateway_most_records() -> u32
    ensures { result ≡ 1024 }
{
    gateway::gateway_most_records()
}

// A message, an encoding and a frame at the most; the output of a take at the least; the values of a lent message.
#[unsafe(no_mangle)]
pub extern "C" fn gateway_most_message_bytes() -> u32
    ensures { result ≡ 8192 }
{
    gateway::gateway_most_message_bytes()
}

// A framer's store.
#[unsafe(no_mangle)]
pub extern "C" fn gateway_store_bytes() -> u32
    ensures { result ≡ 16384 }
{
    gateway::gateway_store_bytes()
}

// A flat dictionary at the most.
#[unsafe(no_mangle)]
pub extern "C" fn gateway_most_dictionary_bytes() -> u32
    ensures { result ≡ 60000 }
{
    gateway::gateway_most_dictionary_bytes()
}

// The words of a lent message.
#[unsafe(no_mangle)]
pub extern "C" fn gateway_message_words() -> u32
    ensures { result ≡ message_words }
{
    gateway::gateway_message_words()
}
