// Spells flat dictionaries.

// Room for the longest dictionary and one byte more.
pub fn room() -> [u8; 60001] {
    [0u8; 60001]
}

// A number in so many bytes, the lowest first.
fn little(out: &mut [u8], at: usize, n: u64, count: usize) -> usize {
    let mut next = at;
    let mut left = n;
    for _ in 0..count {
        next = sample_texts::put(out, next, (left % 256) as u8);
        left /= 256;
    }
    next
}

fn kind(out: &mut [u8], at: usize, kind: u8, n: u64, count: usize) -> usize {
    let next = sample_texts::put(out, at, kind);
    little(out, next, n, count)
}

// A message with its MsgType, filled up with zeros.
fn message(out: &mut [u8], at: usize, kind: &[u8]) -> usize {
    let start = sample_texts::put(out, at, 3);
    let end = sample_texts::copy(out, start, kind);
    little(out, end, 0, 8usize.saturating_sub(kind.len()))
}

// A required mark stands behind the bytes of its number.
const REQUIRED_TAG: u64 = 4294967296;

const REQUIRED_ITEM: u64 = 65536;

fn record(out: &mut [u8], at: usize, word: &[u8]) -> usize {
    let text = sample_texts::from(word, 1);
    let n = u64::from(sample_texts::number(text));
    match sample_texts::first_byte(word) {
        b't' => kind(out, at, 1, n, 4),
        b'c' => kind(out, at, 2, n, 2),
        b'm' => message(out, at, text),
        b'f' => kind(out, at, 4, n, 5),
        b'F' => kind(out, at, 4, n + REQUIRED_TAG, 5),
        b'i' => kind(out, at, 5, n, 3),
        b'I' => kind(out, at, 5, n + REQUIRED_ITEM, 3),
        b'g' => kind(out, at, 6, n, 5),
        b'G' => kind(out, at, 6, n + REQUIRED_TAG, 5),
        b'.' => sample_texts::put(out, at, 7),
        b'b' => little(out, at, n, 1),
        b'z' => little(out, at, 0, n as usize),
        _ => at,
    }
}

fn records(out: &mut [u8], at: usize, text: &[u8]) -> usize {
    let mut next = at;
    for word in text.split(|&byte| byte == b' ') {
        next = record(out, next, word);
    }
    next
}

// Spells the dictionary of a script's piece, `* RECORDS` or, behind the bytes that are there, `*+ RECORDS`; the size of the whole.
pub fn spell(out: &mut [u8], size: usize, piece: &[u8]) -> usize {
    let text = sample_texts::behind(piece, b' ');
    let start = if piece.starts_with(b"*+") { size } else { 0 };
    records(out, start, text)
}
