// build_body_rules: how the body is read between header and trailer: definitions, and the laws that reading through a table is reading through
// the layout that it holds. No function stands here, so that a wrong definition is refused in seconds; `build_body` is proved against it.
#![tactic(auto)]

// Where a run comes in: behind its count, among so many records.
#[derive(Clone, Copy)]
pub struct Opening {
    pub records: usize,
    pub place: usize,
}

// What a tag is to the body: a field of the layout or an accepted one, a count with where the level of its entries starts, or neither.
#[derive(Clone, Copy)]
pub enum BodyKind {
    Plain,
    Counts(usize),
    Other,
}
