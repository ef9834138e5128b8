// sample_recorded: answers the recorded requests on standard input, one a line, in the lines of the comparison (oracle/README.md). `stdout` holds what
// the Rust answered to them; where its hash order decides, the rules' one answer, which is among those that the Rust gave.
// The recorded requests are short: a dictionary, a message or an encoding has up to 2,000 bytes.
#![tactic(auto)]

mod building;
mod calling;
mod drafts;
mod encoded;
mod framing;
mod hexadecimal;

use sample_kit::{reading, scripts};
use std::io;

// Answers a request; the size of the dictionary that is kept from then on. One is kept at a time: all have the number 0.
fn answer(rt: &impl Print, text: &[u8], dictionary: &mut [u8], used: usize) -> io::Result<usize> {
    let rest = sample_texts::behind(text, b' ');
    match sample_texts::first_byte(text) {
        b'd' => return building::keep(rt, dictionary, sample_texts::behind(rest, b' ')),
        b'b' => building::build(rt, rest, sample_texts::first(dictionary, used), false)?,
        b'a' => building::build(rt, rest, sample_texts::first(dictionary, used), true)?,
        b'c' => calling::calls(rt, rest)?,
        b'f' => framing::frames(rt, rest)?,
        _ => print!(rt; "unreadable")?,
    }
    Ok(used)
}

fn answer_all(rt: &impl Print, requests: &[u8], dictionary: &mut [u8]) -> io::Result<()> {
    let mut used: usize = 0;
    for line in requests.split_inclusive(|&byte| byte == b'\n') {
        used = answer(rt, sample_texts::before(line, b'\n'), dictionary, used)?;
        println!(rt;)?;
    }
    Ok(())
}

fn main(rt: HostRuntime) -> io::Result<()> {
    let mut requests = scripts::room();
    let mut dictionary = [0u8; 2000];
    let size = reading::full(&mut rt.stdin(), &mut requests)?;
    answer_all(&rt, sample_texts::first(&requests, size), &mut dictionary)
}
