// frame_parser_rules: definitions and worked examples alone. What the ported framer answers and leaves, and what a stream of messages comes
// out as, whatever code does it: `frame_parser` is proved against it. No function stands here, so that a wrong definition is refused in seconds.
#![tactic(auto)]

// What the framer keeps beside the store: how many bytes are used, whether the end was told, and whether a length over 8,192 bytes
// was announced, the mark that 20 leaves.
#[derive(Clone, Copy)]
pub struct State {
    pub used: usize,
    pub ended: bool,
    pub over: bool,
}

// What a call answers. Accepted: a chunk or the end. Message: a take, with the message's length, 0 if none is ready.
#[derive(Clone, Copy)]
pub enum Answer {
    Accepted,
    Message(usize),
    OverLong,
    ShortOutput,
    StoreFull,
    AfterEnd,
    BadStore,
}

#[derive(Clone, Copy)]
pub struct Outcome {
    pub state: State,
    pub answer: Answer,
}

// Where the message at the front ends: at a place within the limit, past the limit, or not known yet.
#[derive(Clone, Copy)]
pub enum Announced {
    Ends(usize),
    Over,
    Unknown,
}
