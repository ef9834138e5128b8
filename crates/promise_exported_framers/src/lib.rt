// promise_exported_framers: demand 3 and the framing, carried from the framers' cores to the exports over lent states. Theorems alone.
#![tactic(auto)]
