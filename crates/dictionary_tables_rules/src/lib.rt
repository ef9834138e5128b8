// dictionary_tables_rules: definitions, laws and worked examples alone. What is looked up in the table of a layout, for every content of it, and
// which words the table of a layout is, whatever code writes and reads it: `dictionary_tables` is proved against it. No function stands here, so
// that a wrong definition is refused in seconds.
#![tactic(auto)]
