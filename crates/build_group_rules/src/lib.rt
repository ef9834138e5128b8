// build_group_rules: how repeating groups are read, one field a step over a stack of what is open: definitions, what they come to over tables
// and over layouts, and worked runs. No function stands here, so that a wrong definition is refused in seconds; `build_groups` is proved against it.
#![tactic(auto)]

use field_rules::{Cause, Field};

// How deep groups nest.
pub const LEVELS: u32 = 4;

// A group whose count was read: where the level of its entries starts in the table, the count's tag, and the depth of its records.
#[derive(Clone, Copy)]
pub struct Group {
    pub level: usize,
    pub tag: u32,
    pub depth: u32,
}

// How far reading has come: how many fields may still be read, how many records there are, and where the next one goes.
#[derive(Clone, Copy)]
pub struct Progress {
    pub room: usize,
    pub records: usize,
    pub place: usize,
}

// Why reading was refused. The numbers are a tag and the tag of its group.
#[derive(Clone, Copy)]
pub enum Refusal {
    Malformed(Cause, usize),
    TooManyFields,
    InvalidOrderInGroup(u32, u32),
}

// What a tag is to an open entry. A tag of the level comes with its position, a count also with where the level of its entries starts.
#[derive(Clone, Copy)]
pub enum Kind {
    Plain(usize),
    Count(usize, usize),
    Joins,
    Wrong,
    Ends,
}
