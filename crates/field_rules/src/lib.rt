// field_rules: definitions, laws and worked examples alone. What a field is, what numbers, sums and digits are worth, how a list of fields is
// read, and the FIX TagValue encoding itself, whatever code reads: `field_tagvalue` is proved against it. No function stands here, so that a
// wrong definition is refused in seconds.
#![tactic(auto)]

// How fields are read. Whoever reads hands it on whole: what a way of reading must know goes here.
#[derive(Clone, Copy)]
pub struct Mode {
    pub separator: u8,
}

// Where reading stands. It is handed on whole: what reading one field must tell the next goes here.
#[derive(Clone, Copy)]
pub struct Cursor {
    pub at: usize,
}

// One field of a message: where it starts, its tag, the place and length of its value, and where the next one starts.
#[derive(Clone, Copy)]
pub struct Field {
    pub first: usize,
    pub tag: u32,
    pub place: usize,
    pub length: usize,
    pub next: Cursor,
}

// Why no field can be read, in the order in which the reasons are looked for.
#[derive(Clone, Copy)]
pub enum Cause {
    NoEquals,
    NoSeparator,
    BadTag,
}

// Why no field can be read at a place, and that place.
pub type Unreadable = (Cause, usize);
