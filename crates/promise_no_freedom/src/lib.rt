// promise_no_freedom: what it is that a contract leaves no freedom: the schema that `promise_roundtrip` and `gateway` put each operation under. A definition alone.
#![tactic(auto)]
