// build_rules: definitions and worked examples alone. What a message is read as, by what a dictionary means, whatever code reads it: `builder` is
// proved against it. No function stands here, so that a wrong definition is refused in seconds.
#![tactic(auto)]

use field_rules::Field;
