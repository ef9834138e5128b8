// promise_standard_encodings: what is encoded, and a clean message that was built, are messages of the standard (`standard_rules`), for all of
// FIX's tables that they keep to. Laws alone.
#![tactic(auto)]
