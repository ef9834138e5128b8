// promise_standard_build: a message of the standard (`standard_rules`) goes through the whole build, with its fields for records, where it
// fits the dictionary's layouts, and only there. Laws alone.
#![tactic(auto)]
