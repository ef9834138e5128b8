// frame_verdict_rules: definitions and worked examples alone. What a frame is, and what is known of a place from the bytes that stand there,
// whatever code judges it: `frame_verdict` is proved against it. No function stands here, so that a wrong definition is refused in seconds.
#![tactic(auto)]

// What is known of a place from the bytes that stand there: a frame of so many bytes starts; no continuation makes one start; neither.
#[derive(Clone, Copy)]
pub enum Verdict {
    Frame(usize),
    Never,
    Wait,
}

// One stage of reading: read up to a place; no continuation can be read; the bytes do not reach.
#[derive(Clone, Copy)]
pub enum Stage {
    On(usize),
    Bad,
    Short,
}

// The same of the announced length: N, and the place where the N bytes start.
#[derive(Clone, Copy)]
pub enum Length {
    Announced(usize, usize),
    BadLength,
    ShortLength,
}
