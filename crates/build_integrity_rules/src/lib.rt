// build_integrity_rules: when a message's frame is sound, as RULES.md has it under integrity (11 to 14): definitions, laws between them, and
// P1 to P4 worked. No function stands here, so that a wrong definition is refused in seconds; `build_integrity` is proved against it.
#![tactic(auto)]

use field_rules::Field;

// Why a message is garbled.
#[derive(Clone, Copy)]
pub enum GarbledReason {
    Malformed,
    InvalidBeginString,
    InvalidBodyLength,
    InvalidMsgType,
    InvalidChecksum,
}

// The fields that were verified; reading goes on behind MsgType.
#[derive(Clone, Copy)]
pub struct Verified {
    pub begin_string: Field,
    pub body_length: Field,
    pub checksum: Field,
    pub msg_type: Field,
}
