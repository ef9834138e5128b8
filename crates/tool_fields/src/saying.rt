// Writes to standard output.
use std::io;

// How many bytes are shown of a text that is no field.
const EXCERPT: usize = 64;

// So many of a thing.
pub fn counted(rt: &impl Print, n: u64, one: &str, many: &str) -> io::Result<()> {
    print!(rt; "{n}{}", if n == 1 { one } else { many })
}

fn is_plain(byte: u8) -> bool {
    matches!(byte, b' '..=b'~') && byte != b'\\'
}

// A byte that does not stand for itself: a backslash twice, any other as `\xNN`.
fn escape(rt: &impl Print, byte: u8) -> io::Result<()> {
    if byte == b'\\' {
        return rt.write_all(b"\\\\");
    }
    print!(rt; "\\x{byte:02x}")
}

pub fn escaped(rt: &impl Print, bytes: &[u8]) -> io::Result<()> {
    let mut rest = bytes;
    while let Some(size) = rest.iter().position(|&byte| !is_plain(byte)) {
        rt.write_all(&rest[..size])?;
        escape(rt, rest[size])?;
        rest = &rest[size + 1..];
    }
    rt.write_all(rest)
}

// The first bytes of a text, and how many more there are.
pub fn excerpt(rt: &impl Print, bytes: &[u8]) -> io::Result<()> {
    if bytes.len() <= EXCERPT {
        return escaped(rt, bytes);
    }
    escaped(rt, sample_texts::first(bytes, EXCERPT))?;
    print!(rt; " .. and {} bytes more", bytes.len() - EXCERPT)
}
