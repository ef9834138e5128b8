// build_required_rules: which required field the entries of a run lack first (4): definitions, what they come to over tables and over layouts,
// and worked runs. No function stands here, so that a wrong definition is refused in seconds; `build_required` is proved against it.
#![tactic(auto)]

// The first required field that an entry lacks: its tag and its group's.
#[derive(Clone, Copy)]
pub enum Lack {
    Missing(u32, u32),
    Complete,
}
