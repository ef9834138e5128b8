// The dictionary's check, a dictionary prepared in the caller's memory, and the build over the caller's records.
ghost use Rattle.std.specs.Prelude.{◌≡◌, ◌≤◌, length, get_or};
ghost use Rattle.dictionary_rules.specs.Check.{check_of, number_of_check, values_of_check};
ghost use Rattle.build_answers.specs.Answer.{number_of, values_of};
ghost use Rattle.face_told.specs.Told.{told};
ghost use Rattle.face_messages.specs.Lent.{filled, blanked, built_from, built_over, records_lent};
ghost use Rattle.dictionary_prepared.specs.Memory.{head_words, preparation, preparing_of, copy_of, memory_of, number_of_preparing, value_of_preparing};

use face_messages::FieldRecord;

// Checks a flat dictionary.
pub fn gateway_check(dictionary: &[u8], out: &mut [u32; 4]) -> u32
    ensures value { result ≡ number_of_check (check_of dictionary.now) }
    ensures out_after { out.new ≡ told 0 (get_or (values_of_check (check_of dictionary.now)) 0 0, 0) }
{
    let checked = dictionary_check::check(dictionary);
    face_told::tell(out, 0, dictionary_check::value_of(checked) as usize, 0);
    dictionary_check::number_of(checked)
}

// The words of memory that a dictionary is prepared in, at the least; the copy of its records has as many bytes as it has.
pub fn gateway_prepared_words() -> u32
    ensures { result ≡ head_words }
{
    dictionary_prepared::HEAD as u32
}

// Checks a flat dictionary and prepares it for many builds: its records in the copy, what they name in the memory. On a refusal both are as they
// were.
pub fn gateway_prepare(
    dictionary: &[u8],
    copy: &mut [u8],
    memory: &mut [u16],
    out: &mut [u32; 4],
) -> u32
    ensures value { result ≡ number_of_preparing (preparing_of (preparation dictionary.now copy.old memory.old)) }
    ensures copy_after { copy.new ≡ copy_of (preparation dictionary.now copy.old memory.old) }
    ensures memory_after { memory.new ≡ memory_of (preparation dictionary.now copy.old memory.old) }
    ensures out_after { out.new ≡ told 0 (value_of_preparing (preparing_of (preparation dictionary.now copy.old memory.old)), 0) }
{
    let preparing = dictionary_prepared::prepare(dictionary, copy, memory);
    face_told::tell(out, 0, dictionary_prepared::value_of(preparing) as usize, 0);
    dictionary_prepared::number_of(preparing)
}

// Writes blank records over the lent ones, from one place on up to another. Most of what is lent is blank: the loop has no branch and no call, so
// that the compiler clears all of it at once.
fn fill_blank(records: &mut [FieldRecord], from: usize, written: usize)
    requires { (from ≤ written) × (written ≤ length records.old) }
    ensures { records.new ≡ blanked from written records.old }
{
    for i in from..written {
        records[i] = FieldRecord {
            part: 0,
            depth: 0,
            entry: 0,
            tag: 0,
            place: 0,
            length: 0,
        };
    }
}

// Writes over so many of the lent records: those that the words show, and blank ones behind them.
fn fill(
    records: &mut [FieldRecord],
    words: &[u32; build_records::WORDS],
    shown: usize,
    written: usize,
)
    requires { written ≤ length records.old }
    ensures { records.new ≡ filled words.now shown written records.old }
{
    let count = shown.min(written);
    for i in 0..count {
        records[i] = face_messages::field_at(words, shown, i);
    }
    fill_blank(records, count, written);
}

// Builds a message from its bytes into the lent records, at least 1,024: those past the message's are blank, or all stay as they were.
pub fn gateway_build(
    message: &[u8],
    separator: u8,
    settings: u32,
    dictionary: &[u8],
    records: &mut [FieldRecord],
    out: &mut [u32; 4],
) -> u32
    ensures { let built = built_from message.now separator settings dictionary.now (length records.old) in
        (result ≡ number_of built.answer)
        × (records.new ≡ records_lent built records.old)
        × (out.new ≡ told built.records (values_of built.answer)) }
{
    let mut words = face_messages::blank_words();
    let built = face_messages::build(
        message,
        separator,
        settings,
        dictionary,
        records.len(),
        &mut words,
        out,
    );
    fill(records, &words, built.records, built.written);
    built.number
}

// Builds a message as `gateway_build` does, over memory that a dictionary was prepared in: it takes no dictionary and checks none.
pub fn gateway_build_prepared(
    message: &[u8],
    separator: u8,
    settings: u32,
    copy: &[u8],
    memory: &[u16],
    records: &mut [FieldRecord],
    out: &mut [u32; 4],
) -> u32
    ensures { let over = built_over message.now separator settings copy.now memory.now (length records.old) in
        (result ≡ number_of over.answer)
        × (records.new ≡ records_lent over records.old)
        × (out.new ≡ told over.records (values_of over.answer)) }
{
    let mut words = face_messages::blank_words();
    let built = face_messages::build_prepared(
        message,
        separator,
        settings,
        copy,
        memory,
        records.len(),
        &mut words,
        out,
    );
    fill(records, &words, built.records, built.written);
    built.number
}
