// A message that is made and changed by calls, in 8,205 words and 8,192 bytes that the caller lends, drafts of runs in as much, and the
// encoding. A part is 1, the header, or 2, the body; every other number is the trailer.
ghost use Rattle.std.specs.Prelude.{◌≡◌};
ghost use Rattle.message_rules.specs.Changes.{emptying, making, storing, removing};
ghost use Rattle.message_rules.specs.Runs.{starting, entering, storing_last, hanging_last, hanging};
ghost use Rattle.encode_rules.specs.Encode.{encoding_of};
ghost use Rattle.face_told.specs.Told.{told, part_numbered, change_number, changed_words, changed_values, encoding_number, encoding_length, left_words, left_values, left_output};

// Makes what is lent an empty message.
pub fn gateway_empty(words: &mut [u32], values: &mut [u8], out: &mut [u32; 4]) -> u32
    ensures value { result ≡ change_number (emptying words.old values.old) }
    ensures words_after { words.new ≡ changed_words (emptying words.old values.old) }
    ensures values_after { values.new ≡ changed_values (emptying words.old values.old) }
    ensures out_after { out.new ≡ told 0 (0, 0) }
{
    let change = message::empty(words, values);
    face_told::tell_change(out, change)
}

// Makes what is lent a new message, with a BeginString and a MsgType.
pub fn gateway_new(
    words: &mut [u32],
    values: &mut [u8],
    begin_string: &[u8],
    message_type: &[u8],
    out: &mut [u32; 4],
) -> u32
    ensures value { result ≡ change_number (making begin_string.now message_type.now words.old values.old) }
    ensures words_after { words.new ≡ changed_words (making begin_string.now message_type.now words.old values.old) }
    ensures values_after { values.new ≡ changed_values (making begin_string.now message_type.now words.old values.old) }
    ensures out_after { out.new ≡ told 0 (0, 0) }
{
    let change = message::new(words, values, begin_string, message_type);
    face_told::tell_change(out, change)
}

// Stores a field in a part of a message.
pub fn gateway_store(
    words: &mut [u32],
    values: &mut [u8],
    part: u8,
    tag: u32,
    value: &[u8],
    out: &mut [u32; 4],
) -> u32
    ensures value { result ≡ change_number (storing (part_numbered part) tag value.now words.old values.old) }
    ensures words_after { words.new ≡ changed_words (storing (part_numbered part) tag value.now words.old values.old) }
    ensures values_after { values.new ≡ changed_values (storing (part_numbered part) tag value.now words.old values.old) }
    ensures out_after { out.new ≡ told 0 (0, 0) }
{
    let change = message::store(words, values, face_told::part_numbered(part), tag, value);
    face_told::tell_change(out, change)
}

// Removes a field from a part of a message.
pub fn gateway_remove(
    words: &mut [u32],
    values: &mut [u8],
    part: u8,
    tag: u32,
    out: &mut [u32; 4],
) -> u32
    ensures value { result ≡ change_number (removing (part_numbered part) tag words.old values.old) }
    ensures words_after { words.new ≡ changed_words (removing (part_numbered part) tag words.old values.old) }
    ensures values_after { values.new ≡ changed_values (removing (part_numbered part) tag words.old values.old) }
    ensures out_after { out.new ≡ told 0 (0, 0) }
{
    let change = message::remove(words, values, face_told::part_numbered(part), tag);
    face_told::tell_change(out, change)
}

// Makes what is lent a draft of a run, without any entry.
pub fn gateway_draft(words: &mut [u32], values: &mut [u8], out: &mut [u32; 4]) -> u32
    ensures value { result ≡ change_number (starting words.old values.old) }
    ensures words_after { words.new ≡ changed_words (starting words.old values.old) }
    ensures values_after { values.new ≡ changed_values (starting words.old values.old) }
    ensures out_after { out.new ≡ told 0 (0, 0) }
{
    let change = message_runs::empty(words, values);
    face_told::tell_change(out, change)
}

// Adds an entry to a draft.
pub fn gateway_add_entry(
    words: &mut [u32],
    values: &mut [u8],
    start: u32,
    delimiter: u32,
    out: &mut [u32; 4],
) -> u32
    ensures value { result ≡ change_number (entering start delimiter words.old values.old) }
    ensures words_after { words.new ≡ changed_words (entering start delimiter words.old values.old) }
    ensures values_after { values.new ≡ changed_values (entering start delimiter words.old values.old) }
    ensures out_after { out.new ≡ told 0 (0, 0) }
{
    let change = message_runs::add_entry(words, values, start, delimiter);
    face_told::tell_change(out, change)
}

// Stores a field in a draft's last entry.
pub fn gateway_store_last(
    words: &mut [u32],
    values: &mut [u8],
    tag: u32,
    value: &[u8],
    out: &mut [u32; 4],
) -> u32
    ensures value { result ≡ change_number (storing_last tag value.now words.old values.old) }
    ensures words_after { words.new ≡ changed_words (storing_last tag value.now words.old values.old) }
    ensures values_after { values.new ≡ changed_values (storing_last tag value.now words.old values.old) }
    ensures out_after { out.new ≡ told 0 (0, 0) }
{
    let change = message_runs::store_last(words, values, tag, value);
    face_told::tell_change(out, change)
}

// Hangs a run, lent as a draft, in another draft's last entry.
pub fn gateway_hang_last(
    words: &mut [u32],
    values: &mut [u8],
    run_words: &[u32],
    run_values: &[u8],
    out: &mut [u32; 4],
) -> u32
    ensures value { result ≡ change_number (hanging_last run_words.now run_values.now words.old values.old) }
    ensures words_after { words.new ≡ changed_words (hanging_last run_words.now run_values.now words.old values.old) }
    ensures values_after { values.new ≡ changed_values (hanging_last run_words.now run_values.now words.old values.old) }
    ensures out_after { out.new ≡ told 0 (0, 0) }
{
    let change = message_runs::hang_last(words, values, run_words, run_values);
    face_told::tell_change(out, change)
}

// Hangs a run, lent as a draft, on a part of a message.
pub fn gateway_hang(
    words: &mut [u32],
    values: &mut [u8],
    part: u8,
    run_words: &[u32],
    run_values: &[u8],
    out: &mut [u32; 4],
) -> u32
    ensures value { result ≡ change_number (hanging (part_numbered part) run_words.now run_values.now words.old values.old) }
    ensures words_after { words.new ≡ changed_words (hanging (part_numbered part) run_words.now run_values.now words.old values.old) }
    ensures values_after { values.new ≡ changed_values (hanging (part_numbered part) run_words.now run_values.now words.old values.old) }
    ensures out_after { out.new ≡ told 0 (0, 0) }
{
    let change = message_runs::hang(
        words,
        values,
        face_told::part_numbered(part),
        run_words,
        run_values,
    );
    face_told::tell_change(out, change)
}

// Encodes a message at the start of the output; the first value is its length.
pub fn gateway_encode(
    words: &mut [u32],
    values: &mut [u8],
    output: &mut [u8],
    separator: u8,
    out: &mut [u32; 4],
) -> u32
    ensures value { result ≡ encoding_number (encoding_of separator words.old values.old output.old) }
    ensures words_after { words.new ≡ left_words (encoding_of separator words.old values.old output.old) }
    ensures values_after { values.new ≡ left_values (encoding_of separator words.old values.old output.old) }
    ensures output_after { output.new ≡ left_output (encoding_of separator words.old values.old output.old) }
    ensures out_after { out.new ≡ told 0 (encoding_length (encoding_of separator words.old values.old output.old), 0) }
{
    let encoded = encoder::encode(words, values, output, separator);
    face_told::tell_encoding(out, encoded)
}
