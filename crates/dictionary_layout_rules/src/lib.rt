// dictionary_layout_rules: definitions, laws and worked examples alone. What a dictionary means as a tree, which layout each of its messages has,
// and in which rows a layout is written down, whatever code writes and reads them: `dictionary_flattening` and `dictionary_pressing` are proved
// against it. No function stands here, so that a wrong definition is refused in seconds.
#![tactic(auto)]

// The rows of a message's own items, or of a group's entries: the first of them, and the row where they end.
#[derive(Clone, Copy)]
pub struct Level {
    pub first: usize,
    pub end: usize,
}
