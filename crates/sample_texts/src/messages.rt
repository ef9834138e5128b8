// Spells messages.
ghost use Rattle.std.specs.Prelude.{◌≤◌, ◌<◌, length};

// The byte that is spelled at a place of a text.
fn byte_at(text: &[u8], at: usize, separator: u8) -> u8
    requires { at < length text.now }
{
    match text[at] {
        b'|' => separator,
        b'\\' => {
            let rest = &text[at..];
            crate::byte_of(crate::at(rest, 1), crate::at(rest, 2))
        }
        byte => byte,
    }
}

// Where the next one is spelled.
fn next_of(text: &[u8], at: usize) -> usize
    requires { at < length text.now }
    ensures { (at < result) × (result ≤ length text.now) }
{
    if text[at] == b'\\' && 2 < text.len() - at {
        return at + 3;
    }
    at + 1
}

// The bytes of a text; the place behind them.
pub fn spell(out: &mut [u8], at: usize, text: &[u8], separator: u8) -> usize {
    let mut next = at;
    // No index is counted: a byte is spelled by one character or by three.
    let mut i: usize = 0;
    while i < text.len() {
        next = crate::put(out, next, byte_at(text, i, separator));
        i = next_of(text, i);
    }
    next
}

// A right CheckSum behind the bytes that are there.
fn close(out: &mut [u8], at: usize, separator: u8) -> usize {
    let digits = field_numbers::checksum_digits(field_numbers::sum_of(crate::first(out, at)));
    let a = crate::copy(out, at, b"10=");
    let b = crate::copy(out, a, &digits);
    crate::put(out, b, separator)
}

// A message with a right BodyLength and CheckSum, from the bytes between them.
pub fn frame(out: &mut [u8], fields: &[u8], separator: u8) -> usize {
    let a = crate::copy(out, 0, b"8=FIX.4.4");
    let b = crate::put(out, a, separator);
    let c = crate::copy(out, b, b"9=");
    let d = crate::put_number(out, c, (fields.len() % 100000) as u32);
    let e = crate::put(out, d, separator);
    let f = crate::copy(out, e, fields);
    close(out, f, separator)
}
