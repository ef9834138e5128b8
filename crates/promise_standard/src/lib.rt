// promise_standard: messages of the standard (`standard_rules`) against integrity, reading, repeating groups and the hunting framer. Laws alone.
#![tactic(auto)]
