// message_lent_rules: definitions, worked examples and laws alone. When what a caller lends is a message, 27, and what it means; that one meaning
// has one layout, and that a layout is read back as its message. `message_allowed` and `message_lent` are proved against it. No function stands
// here, so that a wrong definition is refused in seconds.
#![tactic(auto)]

// How rows that are lent stand: not allowed, or allowed with a run that has no count, or allowed with a count for each run.
#[derive(Clone, Copy)]
pub enum Standing {
    Refused,
    Uncounted,
    Counted,
}
