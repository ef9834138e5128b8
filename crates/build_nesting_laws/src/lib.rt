// build_nesting_laws: laws alone. What the records of a run that was read look like: how they nest, and that no tag stands twice in an entry.
#![tactic(auto)]
