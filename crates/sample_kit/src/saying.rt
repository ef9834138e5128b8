// Writes to standard output.
use std::io;

// A byte as the rules write it: `|` for 0x01, and `_` for a zero.
fn character(byte: u8) -> u8 {
    match byte {
        0 => b'_',
        1 => b'|',
        _ => byte,
    }
}

pub fn bytes(rt: &impl Print, bytes: &[u8]) -> io::Result<()> {
    for &byte in bytes {
        rt.write_all(&[character(byte)])?;
    }
    Ok(())
}

// What a piece of a script shows that is no word: a heading its line, a name itself with the mark that stands behind names, a case's end a line
// break.
pub fn piece(rt: &impl Print, piece: &[u8], mark: &[u8]) -> io::Result<()> {
    match piece {
        [b'-', ..] => {
            rt.write_all(piece)?;
            println!(rt;)
        }
        [b':', name @ ..] => {
            rt.write_all(name)?;
            rt.write_all(mark)
        }
        [b'.', ..] => println!(rt;),
        _ => Ok(()),
    }
}
