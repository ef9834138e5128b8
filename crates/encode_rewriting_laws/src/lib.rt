// encode_rewriting_laws: the bytes that records in order come to, as read from a message and as an encoding writes them. Laws alone.
#![tactic(auto)]
