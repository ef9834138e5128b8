// promise_roundtrip: what the buyer was promised, as theorems over the definitions that the contracts cite. No code.
#![tactic(auto)]
