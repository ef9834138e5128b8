// build_integrity: whether a message's frame is sound, before anything else is read (11 to 14).
// It looks at four fields and knows no dictionary; what it answers is all that later reading needs of them.
#![tactic(auto)]

ghost use Rattle.std.specs.Prelude.{◌≡◌};
ghost use Rattle.build_integrity_rules.specs.Integrity.{integrity_of, length_agrees, sum_agrees};

use build_integrity_rules::{GarbledReason, Verified};
use field_rules::{Field, Mode};

// "The message length is the place after field 2, plus that number, plus 7."
fn length_agrees(message: &[u8], body_length: Field) -> bool
    ensures { result ≡ length_agrees message.now body_length }
{
    let next = body_length.next;
    let after = next.at;
    let Some(n) = field_numbers::number_of(field_tagvalue::value_of(message, body_length)) else {
        return false;
    };
    if message.len() < after {
        return false;
    }
    let left = message.len() - after;
    if left < 7 {
        return false;
    }
    left - 7 == n as usize
}

// "Where its value is three digits it equals the sum mod 256 of all bytes before it."
fn sum_agrees(message: &[u8], checksum: Field) -> bool
    ensures { result ≡ sum_agrees message.now checksum }
{
    let first = checksum.first;
    let Some(n) = field_numbers::checksum_of(field_tagvalue::value_of(message, checksum)) else {
        return true;
    };
    let before = &message[..first.min(message.len())];
    n == u32::from(field_numbers::sum_of(before))
}

// The checks in their order: 11, 12, 12, 14, 14, 13.
pub fn verify(message: &[u8], mode: Mode) -> Result<Verified, GarbledReason>
    ensures { result ≡ integrity_of mode message.now }
{
    let start = field_tagvalue::start_at(0);
    let Ok(begin_string) = field_tagvalue::next_field(start, message, mode) else {
        return Err(GarbledReason::InvalidBeginString);
    };
    if begin_string.tag != 8 {
        return Err(GarbledReason::InvalidBeginString);
    }
    let second = begin_string.next;
    let Ok(body_length) = field_tagvalue::next_field(second, message, mode) else {
        return Err(GarbledReason::InvalidBodyLength);
    };
    if body_length.tag != 9 {
        return Err(GarbledReason::InvalidBodyLength);
    }
    if !length_agrees(message, body_length) {
        return Err(GarbledReason::InvalidBodyLength);
    }
    let last = field_tagvalue::start_at(message.len() - 7);
    let Ok(checksum) = field_tagvalue::next_field(last, message, mode) else {
        return Err(GarbledReason::InvalidChecksum);
    };
    if checksum.tag != 10 {
        return Err(GarbledReason::InvalidChecksum);
    }
    if !sum_agrees(message, checksum) {
        return Err(GarbledReason::InvalidChecksum);
    }
    let third = body_length.next;
    let Ok(msg_type) = field_tagvalue::next_field(third, message, mode) else {
        return Err(GarbledReason::InvalidMsgType);
    };
    if msg_type.tag != 35 {
        return Err(GarbledReason::InvalidMsgType);
    }
    Ok(Verified {
        begin_string,
        body_length,
        checksum,
        msg_type,
    })
}
