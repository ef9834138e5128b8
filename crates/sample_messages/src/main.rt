// sample_messages: makes, changes and encodes messages by calls, and writes a line for each case: the numbers that its calls answered, the
// messages that they left and what was encoded. The lines of `stdout` were written from 01.
// A case starts with an empty message. Its words (see sample_kit) work on the message or draft in hand:
//   h b t  store in header, body or trailer: `b38=600`; remove: `b-38`
//   !  %   encode for an output of so many bytes: `!8192`; with a separator: `%=`
//   <  @   build the bytes with the script's first line as dictionary, and take the records over; take so many of these records over, each of
//          part, depth, entry number, tag, and the value's place in `ABCDEFGHIJ` and its length: `@1:2,0,0,38,9,1`
//   0  n   make the message empty; make it new with BeginString and MsgType: `nFIX.4.4,D`
//   /  &   look a field up in a part: `/b58`; in an entry of a run, the first being 0: `&b78,0,79`
//   ?      show the message
// To make runs: d an empty draft, +78,79 an entry with its start and delimiter tags, v79=A a field in the last entry; `;` lays what is in hand
// aside and starts an empty message, `^b` hangs what was laid aside on a part, and `^` hangs it in the last entry of the draft in hand.
// To lay rows by hand: ~ none, p1 a part's head, f1,38=600 a field at a level, e1,78,79 an entry at a level, # any row, w the count of rows.
// And l8204,8192 lends so many words and value bytes from here to the end of the case.
#![tactic(auto)]

mod calls;
mod laying;
mod looking;
mod showing;

use sample_kit::scripts;
use std::io;

// How many words and value bytes are lent.
#[derive(Clone, Copy)]
struct Lent {
    words: usize,
    bytes: usize,
}

fn lent_after(lent: Lent, piece: &[u8]) -> Lent {
    let text = sample_texts::from(piece, 1);
    match sample_texts::first_byte(piece) {
        b'l' => Lent {
            words: sample_texts::number_at(text, b',', 0) as usize,
            bytes: sample_texts::number_at(text, b',', 1) as usize,
        },
        b':' => Lent {
            words: message_maps::WORDS,
            bytes: 8192,
        },
        _ => lent,
    }
}

fn lay_aside(aside: &mut [u32], bytes: &mut [u8], words: &[u32], values: &[u8], piece: &[u8]) {
    if piece.starts_with(b";") {
        sample_texts::copy(aside, 0, words);
        sample_texts::copy(bytes, 0, values);
    }
}

// A call on as much of the words and value bytes in hand as is lent.
fn in_hand(
    rt: &impl Print,
    lent: Lent,
    words: &mut [u32],
    values: &mut [u8],
    aside: &[u32],
    bytes: &[u8],
    script: &[u8],
    piece: &[u8],
) -> io::Result<()> {
    if lent.words <= words.len() && lent.bytes <= values.len() {
        calls::call(
            rt,
            &mut words[..lent.words],
            &mut values[..lent.bytes],
            aside,
            bytes,
            script,
            piece,
        )?;
    }
    Ok(())
}

fn step(
    rt: &impl Print,
    before: Lent,
    words: &mut [u32],
    values: &mut [u8],
    aside: &mut [u32],
    bytes: &mut [u8],
    script: &[u8],
    piece: &[u8],
) -> io::Result<Lent> {
    let lent = lent_after(before, piece);
    lay_aside(aside, bytes, words, values, piece);
    in_hand(rt, lent, words, values, aside, bytes, script, piece)?;
    Ok(lent)
}

fn play(
    rt: &impl Print,
    words: &mut [u32],
    values: &mut [u8],
    aside: &mut [u32],
    bytes: &mut [u8],
    script: &[u8],
) -> io::Result<()> {
    let mut lent = Lent { words: 0, bytes: 0 };
    for piece in script.split(|&byte| byte == b'\n') {
        lent = step(rt, lent, words, values, aside, bytes, script, piece)?;
    }
    Ok(())
}

fn main(rt: HostRuntime) -> io::Result<()> {
    let mut script = scripts::room();
    let mut words = [0u32; 8206];
    let mut values = [0u8; 8193];
    let mut aside = [0u32; message_maps::WORDS];
    let mut bytes = [0u8; 8192];
    let size = scripts::read(&mut rt.stdin(), &mut script)?;
    play(
        &rt,
        &mut words,
        &mut values,
        &mut aside,
        &mut bytes,
        sample_texts::first(&script, size),
    )
}
