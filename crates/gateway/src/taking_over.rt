// A built message, taken over from the caller's records into a lent message.
ghost use Rattle.std.specs.Prelude.{◌≡◌, ◌≤◌, length};
ghost use Rattle.message_take_over.specs.Taking.{taking_over};
ghost use Rattle.face_told.specs.Told.{told, taking_number, taken_words, taken_values};
ghost use Rattle.face_messages.specs.Lent.{words_lent, put_fields};

use face_messages::FieldRecord;

// Puts so many of the lent records into the words.
fn lay(records: &[FieldRecord], read: usize, words: &mut [u32; build_records::WORDS])
    requires { read ≤ length records.now }
    ensures { words.new ≡ put_fields records.now read words.old }
{
    for i in 0..read {
        face_messages::put_field(words, i, records[i]);
    }
}

// Takes a build's records, the first `count` of those that are lent, and the bytes that they point into over into a lent message.
pub fn gateway_take_over(
    records: &[FieldRecord],
    count: usize,
    message: &[u8],
    words: &mut [u32],
    values: &mut [u8],
    out: &mut [u32; 4],
) -> u32
    ensures { (result ≡ taking_number (taking_over (words_lent records.now) count message.now words.old values.old))
        × (words.new ≡ taken_words (taking_over (words_lent records.now) count message.now words.old values.old))
        × (values.new ≡ taken_values (taking_over (words_lent records.now) count message.now words.old values.old))
        × (out.new ≡ told 0 (0, 0)) }
{
    let mut laid = face_messages::blank_words();
    let read = face_messages::read_count(records.len(), count);
    lay(records, read, &mut laid);
    face_messages::take_over(&laid, read, count, message, words, values, out)
}
