// build_order_laws: header, body, groups and trailer are read by tags alone, and where no tag is stored twice the records stand in the order
// in which their fields were read. Laws alone.
#![tactic(auto)]
