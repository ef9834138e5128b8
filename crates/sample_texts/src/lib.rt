// sample_texts: what the sample programs do with texts: it takes them apart, puts them together and spells messages. It is for programs alone:
// no library of the gateway may stand on it. Its contracts say that it is safe and ends, and how long a part is where a caller slices by it.
#![tactic(auto)]

pub mod messages;

ghost use Rattle.std.specs.Prelude.{◌≤◌, ◌<◌, length};

// The first items, or none where there are not so many.
pub fn first<T>(items: &[T], size: usize) -> &[T] {
    items.get(..size).unwrap_or(&[])
}

// The items from a place on.
pub fn from<T>(items: &[T], place: usize) -> &[T] {
    items.get(place..).unwrap_or(&[])
}

// So many items from a place on.
pub fn part<T>(items: &[T], place: usize, size: usize) -> &[T] {
    first(from(items, place), size)
}

// What stands before the first mark; all where there is none.
pub fn before(text: &[u8], mark: u8) -> &[u8] {
    let Some(place) = field_tagvalue::find(text, mark) else {
        return text;
    };
    first(text, place)
}

// What stands behind the first mark.
pub fn behind(text: &[u8], mark: u8) -> &[u8] {
    let Some(place) = field_tagvalue::find(text, mark) else {
        return &[];
    };
    from(from(text, place), 1)
}

// The item at a place, 0 where there is none.
pub fn at<T: Copy + Default>(items: &[T], place: usize) -> T {
    items.get(place).copied().unwrap_or_default()
}

pub fn first_byte(text: &[u8]) -> u8 {
    at(text, 0)
}

// What the digits of a text are worth, 0 where there are none.
pub fn number(text: &[u8]) -> u32 {
    match field_numbers::number_of(text) {
        Some(n) => n,
        None => 0,
    }
}

// Where the piece that starts at a place ends: at the mark, or with the text.
pub fn end_of(text: &[u8], from: usize, mark: u8) -> usize
    requires { from ≤ length text.now }
    ensures { (from ≤ result) × (result ≤ length text.now) }
{
    match text[from..].iter().position(|&byte| byte == mark) {
        Some(size) => from + size,
        None => text.len(),
    }
}

// Of the pieces with marks between them, one by its number, the first being 0.
pub fn piece(text: &[u8], mark: u8, number: usize) -> &[u8] {
    text.split(|&byte| byte == mark).nth(number).unwrap_or(&[])
}

// The number that such a piece is.
pub fn number_at(text: &[u8], mark: u8, number_of_piece: usize) -> u32 {
    number(piece(text, mark, number_of_piece))
}

// What a hexadecimal digit is worth.
fn digit(character: u8) -> u8
    ensures { result < 16 }
{
    if character < b'a' {
        return character % 16;
    }
    (character % 16 + 9) % 16
}

// The byte of two hexadecimal digits.
pub fn byte_of(high: u8, low: u8) -> u8 {
    digit(high) * 16 + digit(low)
}

// Puts an item at a place where there is room; the place behind it.
pub fn put<T: Copy>(out: &mut [T], place: usize, item: T) -> usize {
    if place < out.len() {
        out[place] = item;
        return place + 1;
    }
    place
}

pub fn copy<T: Copy>(out: &mut [T], place: usize, items: &[T]) -> usize {
    let mut next = place;
    for &item in items {
        next = put(out, next, item);
    }
    next
}

pub fn put_number(out: &mut [u8], place: usize, n: u32) -> usize {
    match field_numbers::write_number(out, place, n) {
        Some(next) => next,
        None => place,
    }
}
