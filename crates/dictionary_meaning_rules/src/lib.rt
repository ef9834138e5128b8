// dictionary_meaning_rules: definitions, laws and worked examples alone. What a dictionary's bytes mean, and that the tables and lists which
// are written from them mean the same, whatever code writes them: `dictionary_flattening` is proved against it. No function stands here, so that a wrong
// definition is refused in seconds.
#![tactic(auto)]

// How many rows the table of a message has. Unprepared: the index is not the one that the check of this dictionary left.
#[derive(Clone, Copy)]
pub enum MessageTable {
    Rows(usize),
    NoMessage,
    Unprepared,
}
