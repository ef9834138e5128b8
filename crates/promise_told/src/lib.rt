// promise_told: no number that an export tells in its four words is cut: laws alone, no function stands here.
#![tactic(auto)]
