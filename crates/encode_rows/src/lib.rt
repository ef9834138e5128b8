// encode_rows: a message as bytes. It writes what a lent message holds in one pass over its rows, with the CheckSum behind it. Only `encoder` calls
// it, which judges a message first and sets its BodyLength: its functions may ask that a message is lent and has room.
#![tactic(auto)]

ghost use Rattle.std.specs.Prelude.{◌≡◌, true, false, ◌+◌, ◌-◌, ◌*◌, ◌%◌, ◌≤◌, ◌<◌, length, take, drop};
ghost use Rattle.field_rules.specs.Decimal.{decimal, written_at};
ghost use Rattle.field_rules.specs.CheckSum.{sum_of};
ghost use Rattle.field_rules.specs.Field.{field_bytes};
ghost use Rattle.message_maps.specs.Rows.{row_at, rows_from, size_of, message_words, message_rows};
ghost use Rattle.message_lent_rules.specs.Lent.{is_message};
ghost use Rattle.message_lent_rules.specs.Meaning.{message_in};
ghost use Rattle.message_rules.specs.RowChanges.{place_of};
ghost use Rattle.encode_rules.specs.Encoding.{message_text, summed};
ghost use Rattle.encode_rows.specs.Writing.{chosen, row_on, row_text, rows_text, row_bytes, bytes_in, header_at, text_at, Stands, Spans, tail_of};

use message_rules::{Part, Span};

fn write_bytes(output: &mut [u8], at: usize, text: &[u8]) -> usize
    requires { at + length text.now ≤ length output.old }
    ensures value { result ≡ at + length text.now }
    ensures output_after { output.new ≡ written_at at text.now output.old }
{
    copies::copy(text, &mut output[at..]);
    at + text.len()
}

// One field: its tag, `=`, its value and the separator.
fn write_field(output: &mut [u8], at: usize, tag: u32, value: &[u8], separator: u8) -> usize
    requires { at + (length (decimal tag) + length value.now + 2) ≤ length output.old }
    ensures value { result ≡ at + (length (decimal tag) + length value.now + 2) }
    ensures output_after { output.new ≡ written_at at (field_bytes separator (decimal tag) value.now) output.old }
{
    let Some(digits) = field_numbers::write_number(output, at, tag) else {
        return at;
    };
    let place = write_bytes(output, digits, b"=");
    let end = write_bytes(output, place, value);
    write_bytes(output, end, &[separator])
}

#[tactic(auto, unfolding(crate::specs::Writing::chosen, encode_rules::specs::Encoding::is_rest, encode_rules::specs::Encoding::is_first))]
fn is_chosen(which: u32, tag: u32) -> bool
    ensures { result ≡ chosen which tag }
{
    if which == 0 {
        return true;
    }
    if which == 1 {
        return tag != 8 && tag != 9 && tag != 35;
    }
    tag == which
}

// How many bytes a row takes when it is written.
pub fn row_bytes(words: &[u32], row: usize) -> usize
    requires { (row < message_rows) × (length words.now ≡ message_words) }
    ensures value { result ≡ row_bytes (row_at words.now row) }
    ensures upper_bound { result < 8589934592 }
{
    if message_maps::kind_of(words, row) == 1 {
        return field_numbers::digit_count(message_maps::tag_of(words, row))
            + message_maps::extra_of(words, row) as usize
            + 2;
    }
    0
}

pub fn bytes_between(words: &[u32], from: usize, to: usize) -> usize
    requires { (from ≤ to) × (to ≤ message_rows) × (length words.now ≡ message_words) }
    ensures value { result ≡ bytes_in (rows_from (to - from) from words.now) }
    ensures upper_bound { result ≤ message_rows * 8589934592 }
{
    let mut size: usize = 0;
    for i in from..to {
        size += row_bytes(words, i);
    }
    size
}

#[tactic(auto, unfolding(message_maps::specs::Rows::row_at, message_maps::specs::Rows::level_of, crate::specs::Writing::row_on))]
fn row_on(words: &[u32], row: usize, which: u32, on: bool) -> bool
    requires { (row < message_rows) × (length words.now ≡ message_words) }
    ensures { result ≡ row_on which on (row_at words.now row) }
{
    if message_maps::level_of(words, row) == 1 {
        return is_chosen(which, message_maps::tag_of(words, row));
    }
    on
}

// Writes a row if it is a field and is to be written; its value stands at `place`.
fn write_row(
    words: &[u32],
    values: &[u8],
    output: &mut [u8],
    at: usize,
    row: usize,
    place: usize,
    on: bool,
    separator: u8,
) -> usize
    requires { (row < message_rows) × (length words.now ≡ message_words) × (place + size_of (row_at words.now row) ≤ length values.now) × (at + length (row_text separator on (row_at words.now row) (drop place values.now)) ≤ length output.old) }
    ensures value { result ≡ at + length (row_text separator on (row_at words.now row) (drop place values.now)) }
    ensures output_after { output.new ≡ written_at at (row_text separator on (row_at words.now row) (drop place values.now)) output.old }
{
    if !on {
        return at;
    }
    if message_maps::kind_of(words, row) != 1 {
        return at;
    }
    let end = place + message_maps::size_of(words, row);
    write_field(
        output,
        at,
        message_maps::tag_of(words, row),
        &values[place..end],
        separator,
    )
}

// Writes what a map has under the chosen tags; its rows stand from `from` to `to`.
fn write_items(
    words: &[u32],
    values: &[u8],
    output: &mut [u8],
    at: usize,
    from: usize,
    to: usize,
    which: u32,
    separator: u8,
) -> usize
    requires { (from ≤ to) × (to ≤ message_rows) × (length words.now ≡ message_words) × (place_of words.now to ≤ length values.now) × (at + length (rows_text which separator false (rows_from (to - from) from words.now) (drop (place_of words.now from) values.now)) ≤ length output.old) }
    ensures value { result ≡ at + length (rows_text which separator false (rows_from (to - from) from words.now) (drop (place_of words.now from) values.now)) }
    ensures output_after { output.new ≡ written_at at (rows_text which separator false (rows_from (to - from) from words.now) (drop (place_of words.now from) values.now)) output.old }
{
    let mut next = at;
    let mut place = message_maps::size_between(words, 0, from);
    let mut on = false;
    for i in from..to {
        on = row_on(words, i, which, on);
        next = write_row(words, values, output, next, i, place, on, separator);
        place += message_maps::size_of(words, i);
    }
    next
}

// The header's 8, 9 and 35, then the rest of it.
fn write_header(words: &[u32], values: &[u8], output: &mut [u8], head: Span, separator: u8) -> usize
    requires stands { Stands words.now values.now head }
    requires separator_in_bounds { length (header_at words.now values.now head separator) ≤ length output.old }
    ensures value { result ≡ length (header_at words.now values.now head separator) }
    ensures output_after { output.new ≡ written_at 0 (header_at words.now values.now head separator) output.old }
{
    let Span { from, to, .. } = head;
    let first = write_items(words, values, output, 0, from, to, 8, separator);
    let second = write_items(words, values, output, first, from, to, 9, separator);
    let third = write_items(words, values, output, second, from, to, 35, separator);
    write_items(words, values, output, third, from, to, 1, separator)
}

// The header, the body and the trailer.
fn write_text(
    words: &[u32],
    values: &[u8],
    output: &mut [u8],
    head: Span,
    middle: Span,
    tail: Span,
    separator: u8,
) -> usize
    requires { Spans words.now values.now output.old head middle tail separator }
    ensures value { result ≡ length (text_at words.now values.now head middle tail separator) }
    ensures output_after { output.new ≡ written_at 0 (text_at words.now values.now head middle tail separator) output.old }
{
    let first = write_header(words, values, output, head, separator);
    let second = write_items(
        words,
        values,
        output,
        first,
        middle.from,
        middle.to,
        0,
        separator,
    );
    write_items(
        words, values, output, second, tail.from, tail.to, 0, separator,
    )
}

fn sum_before(output: &[u8], at: usize) -> u8
    requires { at ≤ length output.now }
    ensures { result ≡ sum_of (take at output.now) % 256 }
{
    field_numbers::sum_of(&output[..at])
}

// The prefix `10=`, three digits of the sum of all before, and the separator.
fn write_tail(output: &mut [u8], at: usize, separator: u8)
    requires { at + 7 ≤ length output.old }
    ensures { output.new ≡ written_at at (tail_of separator (take at output.old)) output.old }
{
    let sum = sum_before(output, at);
    let digits = field_numbers::checksum_digits(sum);
    let first = write_bytes(output, at, b"10=");
    let second = write_bytes(output, first, &digits);
    write_bytes(output, second, &[separator]);
}

// Writes a message as it is held, with the CheckSum of its bytes behind it, and answers its length.
pub fn write_message(words: &[u32], values: &[u8], output: &mut [u8], separator: u8) -> usize
    requires values_value { is_message words.now values.now ≡ true }
    requires values_len_bound { (length (message_text separator (message_in words.now values.now)) + 7 ≤ 8192) × (length (message_text separator (message_in words.now values.now)) + 7 ≤ length output.old) }
    ensures value { result ≡ length (message_text separator (message_in words.now values.now)) + 7 }
    ensures output_after { output.new ≡ written_at 0 (summed separator (message_text separator (message_in words.now values.now))) output.old }
{
    let head = message::span_of(words, values, Part::Header);
    let middle = message::span_of(words, values, Part::Body);
    let tail = message::span_of(words, values, Part::Trailer);
    let at = write_text(words, values, output, head, middle, tail, separator);
    write_tail(output, at, separator);
    at + 7
}
