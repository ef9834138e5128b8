// promise_exported_messages: the promises on messages, as theorems over the contracts of the exports that a caller calls. No code.
#![tactic(auto)]
