// The dictionary's check, a dictionary prepared in the caller's memory, and the build over the caller's records.
ghost use Rattle.std.specs.Prelude.{◌≡◌, length, get_or};
ghost use Rattle.dictionary_rules.specs.Check.{check_of, number_of_check, values_of_check};
ghost use Rattle.build_answers.specs.Answer.{number_of, values_of};
ghost use Rattle.face_told.specs.Told.{told};
ghost use Rattle.face_messages.specs.Lent.{built_from, built_over, records_lent};
ghost use Rattle.dictionary_prepared.specs.Memory.{head_words, preparation, preparing_of, copy_of, memory_of, number_of_preparing, value_of_preparing};

use face_messages::FieldRecord;

// Checks a flat dictionary.
#[unsafe(no_mangle)]
pub extern "C" fn gateway_check(dictionary: &[u8], out: &mut [u32; 4]) -> u32
    ensures value { result ≡ number_of_check (check_of dictionary.now) }
    ensures out_after { out.new ≡ told 0 (get_or (values_of_check (check_of dictionary.now)) 0 0, 0) }
{
    gateway::building::gateway_check(dictionary, out)
}

// The words of memory that a dictionary is prepared in, at the least; the copy of its records has as many bytes as it has.
#[unsafe(no_mangle)]
pub extern "C" fn gateway_prepared_words() -> u32
    ensures { result ≡ head_words }
{
    gateway::building::gateway_prepared_words()
}

// Checks a flat dictionary and prepares it for many builds: its records in the copy, what they name in the memory. On a refusal both are as they
// were.
#[unsafe(no_mangle)]
pub extern "C" fn gateway_prepare(
    dictionary: &[u8],
    copy: &mut [u8],
    memory: &mut [u16],
    out: &mut [u32; 4],
) -> u32
    ensures value { result ≡ number_of_preparing (preparing_of (preparation dictionary.now copy.old memory.old)) }
    ensures copy_after { copy.new ≡ copy_of (preparation dictionary.now copy.old memory.old) }
    ensures memory_after { memory.new ≡ memory_of (preparation dictionary.now copy.old memory.old) }
    ensures out_after { out.new ≡ told 0 (value_of_preparing (preparing_of (preparation dictionary.now copy.old memory.old)), 0) }
{
    gateway::building::gateway_prepare(dictionary, copy, memory, out)
}

// Builds a message from its bytes into the lent records, at least 1,024: those past the message's are blank, or all stay as they were.
#[unsafe(no_mangle)]
pub extern "C" fn gateway_build(
    message: &[u8],
    separator: u8,
    settings: u32,
    dictionary: &[u8],
    records: &mut [FieldRecord],
    out: &mut [u32; 4],
) -> u32
    ensures { let built = built_from message.now separator settings dictionary.now (length records.old) in
        (result ≡ number_of built.answer)
        × (records.new ≡ records_lent built records.old)
        × (out.new ≡ told built.records (values_of built.answer)) }
{
    gateway::building::gateway_build(message, separator, settings, dictionary, records, out)
}

// Builds a message as `gateway_build` does, over memory that a dictionary was prepared in: it takes no dictionary and checks none.
#[unsafe(no_mangle)]
pub extern "C" fn gateway_build_prepared(
    message: &[u8],
    separator: u8,
    settings: u32,
    copy: &[u8],
    memory: &[u16],
    records: &mut [FieldRecord],
    out: &mut [u32; 4],
) -> u32
    ensures { let over = built_over message.now separator settings copy.now memory.now (length records.old) in
        (result ≡ number_of over.answer)
        × (records.new ≡ records_lent over records.old)
        × (out.new ≡ told over.records (values_of over.answer)) }
{
    gateway::building::gateway_build_prepared(
        message, separator, settings, copy, memory, records, out,
    )
}
