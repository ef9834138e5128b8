// message_rules: definitions and worked examples alone. What a call makes of a message that is lent, what is found in one, and what a run is
// made of, whatever code does it: `message`, `message_look_ups` and `message_runs` are proved against it. No function stands here, so that a wrong definition
// is refused in seconds.
#![tactic(auto)]

#[derive(Clone, Copy)]
pub enum Part {
    Header,
    Body,
    Trailer,
}

// What a call that changes a message answers: 0, 27, 41, 42, 21.
#[derive(Clone, Copy)]
pub enum Change {
    Made,
    NoMessage,
    NotStorable,
    NoRun,
    TooManyFields,
}

// The rows of a part's map, and how many rows there are in all.
#[derive(Clone, Copy)]
pub struct Span {
    pub from: usize,
    pub to: usize,
    pub count: usize,
}

// Rows that are taken out, from `from` to `to`; those from `kept` on come back behind what follows up to `until`.
#[derive(Clone, Copy)]
pub struct Cut {
    pub from: usize,
    pub to: usize,
    pub kept: usize,
    pub until: usize,
    pub count: usize,
}

// Where a value stands in the store.
#[derive(Clone, Copy)]
pub struct Value {
    pub place: usize,
    pub size: usize,
}

#[derive(Clone, Copy)]
pub enum FoundValue {
    NoMessage,
    Absent,
    At(Value),
}

#[derive(Clone, Copy)]
pub enum FoundMap {
    NoMessage,
    Absent,
    At(usize),
}
