// Reads and writes bytes in hexadecimal.
use std::io;

// Writes the bytes of a text of hexadecimal digits, none for `-`; how many they are.
pub fn read(out: &mut [u8], text: &[u8]) -> usize {
    for (i, pair) in text.chunks_exact(2).enumerate() {
        sample_texts::put(out, i, byte(pair));
    }
    text.len() / 2
}

// A separator: the byte of two hexadecimal digits.
pub fn byte(text: &[u8]) -> u8 {
    sample_texts::byte_of(sample_texts::at(text, 0), sample_texts::at(text, 1))
}

// Bytes in hexadecimal, `-` for none.
pub fn say(rt: &impl Print, bytes: &[u8]) -> io::Result<()> {
    if bytes.is_empty() {
        return print!(rt; "-");
    }
    for byte in bytes {
        print!(rt; "{byte:02x}")?;
    }
    Ok(())
}
