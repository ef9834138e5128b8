// frame_hunter_rules: definitions and worked examples alone. What the hunting framer answers and leaves, and which frames a stream comes out
// as however it is cut, whatever code hunts: `frame_hunter` is proved against it. No function stands here, so that a wrong definition is refused
// in seconds.
#![tactic(auto)]

// What the hunt does at a place: it hands out so many bytes, passes the place, or stops there.
#[derive(Clone, Copy)]
pub enum Act {
    Hand(usize),
    Pass,
    Stop,
}

// How many places a take passed, and how many bytes it hands out behind them: 0 if no frame is ready.
#[derive(Clone, Copy)]
pub struct Hunted {
    pub passed: usize,
    pub length: usize,
}

// The framer's state. Its bytes are the first `used` of the store, which the caller lends to each call.
#[derive(Clone, Copy)]
pub struct State {
    pub used: usize,
    pub dropped: u64,
    pub ended: bool,
}

// RULES.md, Numbers: 0, 23, 25, 26 and 27.
#[derive(Clone, Copy)]
pub enum Answer {
    Fine,
    OutputShort,
    StoreFull,
    AfterEnd,
    BadStore,
}

// What a chunk or the end is answered.
#[derive(Clone, Copy)]
pub struct Reply {
    pub answer: Answer,
    pub state: State,
}

// What a take is answered: the length of the frame at the start of the output, 0 if none is ready.
#[derive(Clone, Copy)]
pub struct Taken {
    pub answer: Answer,
    pub length: usize,
    pub state: State,
}
