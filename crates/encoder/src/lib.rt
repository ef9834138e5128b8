// encoder: the encode operation (27, 22, 43, 20, 21, 23). All is judged once, by sizes of rows, before anything changes; then the message gets its
// new BodyLength, is written, and gets its new CheckSum. It keeps nothing and demands nothing of what is lent.
#![tactic(auto)]

ghost use Rattle.std.specs.Prelude.{◌≡◌, true, [], ◌+◌, ◌-◌, ◌≤◌, ◌<◌, ltb};
ghost use Rattle.field_rules.specs.Decimal.{decimal};
ghost use Rattle.message_maps.specs.Rows.{rows_from};
ghost use Rattle.message_lent_rules.specs.Lent.{rows_of, is_message};
ghost use Rattle.message_lent_rules.specs.Meaning.{message_in};
ghost use Rattle.message_lent_rules.specs.Standing.{uncounted};
ghost use Rattle.message_rules.specs.declared.Part.TheVariants.{Header};
ghost use Rattle.message_rules.specs.Changes.{after, storing};
ghost use Rattle.message_rules.specs.RowChanges.{Blank};
ghost use Rattle.encode_rules.specs.Encode.{encode_verdict, left, encoded, encoding_of};
ghost use Rattle.encoder.specs.Judging.{SpanWithin, held_at, hung_at, size_at, incomplete_at, all_bytes, body_at, added_at, fields_at};
ghost use Rattle.encoder.specs.Leaving.{Encodable};

use encode_rules::Encoding;
use message_lent_rules::Standing;
use message_rules::{Change, Part, Span};

// The same call as `has_run` makes, with the kind of another row: a name for each says more than the kind's number would.
fn holds(words: &[u32], span: Span, tag: u32) -> bool
    requires { SpanWithin words.now span }
    ensures { result ≡ held_at words.now span tag }
{
    message_maps::find_row(words, 1, 1, tag, span.from, span.to) < span.to
}

fn has_run(words: &[u32], span: Span, start: u32) -> bool
    requires { SpanWithin words.now span }
    ensures { result ≡ hung_at words.now span start }
{
    message_maps::find_row(words, 2, 1, start, span.from, span.to) < span.to
}

// How many bytes a part's own field takes when it is written, 0 where the part lacks it.
fn field_bytes(words: &[u32], span: Span, tag: u32) -> usize
    requires { SpanWithin words.now span }
    ensures value { result ≡ size_at words.now span tag }
    ensures upper_bound { result < 8589934592 }
{
    let at = message_maps::find_row(words, 1, 1, tag, span.from, span.to);
    if at < span.to {
        return encode_rows::row_bytes(words, at);
    }
    0
}

// A header without 8 or 35, or a run without its count, as was found; the trailer's 10 counts none, as it is dropped.
fn is_incomplete(words: &[u32], head: Span, tail: Span, loose: bool) -> bool
    requires span_within { (SpanWithin words.now head) × (SpanWithin words.now tail) }
    requires loose_value { loose ≡ uncounted [] (rows_from (head.count - 0) 0 words.now) }
    ensures { result ≡ incomplete_at words.now head tail }
{
    if !holds(words, head, 8) {
        return true;
    }
    if !holds(words, head, 35) {
        return true;
    }
    if has_run(words, tail, 10) {
        return true;
    }
    loose
}

// The bytes of all fields and entries but the header's own 8 and 9 and the trailer's own 10.
fn body_length(words: &[u32], head: Span, tail: Span) -> usize
    requires span_within { (SpanWithin words.now head) × (SpanWithin words.now tail) }
    requires tail_bound { size_at words.now head 8 + size_at words.now head 9 + size_at words.now tail 10 ≤ all_bytes words.now head }
    ensures { result ≡ body_at words.now head tail }
{
    let all = encode_rows::bytes_between(words, 0, head.count);
    let eight = field_bytes(words, head, 8);
    let nine = field_bytes(words, head, 9);
    let ten = field_bytes(words, tail, 10);
    all - (eight + nine + ten)
}

// How many fields come to a part where it gets a field: none where that field is held.
fn added(words: &[u32], span: Span, tag: u32) -> usize
    requires { SpanWithin words.now span }
    ensures value { result ≡ added_at words.now span tag }
    ensures upper_bound { result ≤ 1 }
{
    if holds(words, span, tag) {
        return 0;
    }
    1
}

// Whether the fields with the new 9 and 10 pass the limit.
fn passes_limit(words: &[u32], head: Span, tail: Span) -> bool
    requires { (SpanWithin words.now head) × (SpanWithin words.now tail) }
    ensures { result ≡ ltb 1024 (fields_at words.now head tail) }
{
    message_lent::passes_limit(
        words,
        head.count,
        added(words, head, 9) + added(words, tail, 10),
    )
}

// Judges a message that was found to be one, with or without a run that has no count.
fn measure(
    words: &[u32],
    values: &[u8],
    separator: u8,
    room: usize,
    loose: bool,
) -> Result<u32, Encoding>
    requires values_value { is_message words.now values.now ≡ true }
    requires loose_value { loose ≡ uncounted [] (rows_of words.now) }
    ensures { result ≡ encode_verdict separator words.now values.now room }
{
    let head = message::span_of(words, values, Part::Header);
    let tail = message::span_of(words, values, Part::Trailer);
    if field_tagvalue::is_refused_separator(separator) {
        return Err(Encoding::InvalidSeparator);
    }
    if is_incomplete(words, head, tail, loose) {
        return Err(Encoding::Incomplete);
    }
    let body = body_length(words, head, tail);
    if 8192 < body {
        return Err(Encoding::TooLong);
    }
    let begin = field_bytes(words, head, 8);
    let length = begin + field_numbers::digit_count(body as u32) + body + 10;
    if 8192 < length {
        return Err(Encoding::TooLong);
    }
    if passes_limit(words, head, tail) {
        return Err(Encoding::TooManyFields);
    }
    if room < length {
        return Err(Encoding::NoRoom);
    }
    Ok(body as u32)
}

fn judge(words: &[u32], values: &[u8], separator: u8, room: usize) -> Result<u32, Encoding>
    ensures { result ≡ encode_verdict separator words.now values.now room }
{
    let standing = message_lent::message_standing(words, values);
    match standing {
        Standing::Refused => {
            return Err(Encoding::NoMessage);
        }
        Standing::Uncounted => {
            return measure(words, values, separator, room, true);
        }
        Standing::Counted => {
            return measure(words, values, separator, room, false);
        }
    }
}

// Behind a message that is being encoded zeros are known to stand.
fn set_body_length(words: &mut [u32], values: &mut [u8], body: u32) -> Change
    requires values_value { is_message words.old values.old ≡ true }
    requires blank { Blank true words.old values.old }
    ensures { after result words.new values.new ≡ storing Header 9 (decimal body) words.old values.old }
{
    let mut digits = [0u8; 10];
    let scratch = &mut digits[..];
    let Some(end) = field_numbers::write_number(scratch, 0, body) else {
        return Change::NotStorable;
    };
    message::store_in(words, values, Part::Header, 9, &digits[..end], true)
}

// Writes a message that was found fit to be encoded, and sets its 9 and 10.
fn write_encoding(
    words: &mut [u32],
    values: &mut [u8],
    output: &mut [u8],
    separator: u8,
    body: u32,
) -> Encoding
    requires { Encodable separator words.old values.old output.old body }
    ensures { left result words.new values.new output.new ≡ encoded separator (message_in words.old values.old) output.old }
{
    message::remove_in(words, values, Part::Trailer, 10);
    set_body_length(words, values, body);
    let length = encode_rows::write_message(words, values, output, separator);
    let first = length - 4;
    let last = length - 1;
    message::store_in(words, values, Part::Trailer, 10, &output[first..last], true);
    Encoding::Written(length)
}

// Encodes a message at the start of the output: 27, 22, 43, 20, 21, 23. It then holds its new 9 and 10.
pub fn encode(words: &mut [u32], values: &mut [u8], output: &mut [u8], separator: u8) -> Encoding
    ensures { left result words.new values.new output.new ≡ encoding_of separator words.old values.old output.old }
{
    match judge(words, values, separator, output.len()) {
        Ok(body) => write_encoding(words, values, output, separator, body),
        Err(refusal) => refusal,
    }
}
