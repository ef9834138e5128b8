// encode_rules: definitions and worked encodings alone. What a message is as bytes, by RULES.md, Encoding, and what an encode call answers and leaves,
// whatever code writes it: `encode_rows` and `encoder` are proved against it. No code stands here, so that a wrong definition is refused in
// seconds.
#![tactic(auto)]

// How encoding ended: 0 with the length of the encoding, 27, 22, 43, 20, 21, 23.
#[derive(Clone, Copy)]
pub enum Encoding {
    Written(usize),
    NoMessage,
    InvalidSeparator,
    Incomplete,
    TooLong,
    TooManyFields,
    NoRoom,
}
