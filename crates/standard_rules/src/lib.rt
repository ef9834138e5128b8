// standard_rules: the FIX TagValue encoding as its public standard has it, over FIX's own tables, for a FIX engineer to check; texts that it
// has and texts that it refuses; and that a field of it is read with its tag and value. Definitions and laws alone.
#![tactic(auto)]
