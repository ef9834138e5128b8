// A built message, taken over from the caller's records into a lent message.
ghost use Rattle.std.specs.Prelude.{◌≡◌};
ghost use Rattle.message_take_over.specs.Taking.{taking_over};
ghost use Rattle.face_told.specs.Told.{told, taking_number, taken_words, taken_values};
ghost use Rattle.face_messages.specs.Lent.{words_lent};

use face_messages::FieldRecord;

// Takes a build's records, the first `count` of those that are lent, and the bytes that they point into over into a lent message.
#[unsafe(no_mangle)]
pub extern "C" fn gateway_take_over(
    records: &[FieldRecord],
    count: usize,
    message: &[u8],
    words: &mut [u32],
    values: &mut [u8],
    out: &mut [u32; 4],
) -> u32
    ensures { (result ≡ taking_number (taking_over (words_lent records.now) count message.now words.old values.old))
        × (words.new ≡ taken_words (taking_over (words_lent records.now) count message.now words.old values.old))
        × (values.new ≡ taken_values (taking_over (words_lent records.now) count message.now words.old values.old))
        × (out.new ≡ told 0 (0, 0)) }
{
    gateway::taking_over::gateway_take_over(records, count, message, words, values, out)
}
