// promise_message_kept: what a call leaves where it answers 0 is never refused with 27, by whatever call comes next. Laws alone.
#![tactic(auto)]
