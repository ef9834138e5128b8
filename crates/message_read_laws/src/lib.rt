// message_read_laws: what is read as header, body and trailer of a message stands for a message within the limits of RULES.md, Field maps. Laws alone.
#![tactic(auto)]
