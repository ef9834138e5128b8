// Streams for the ported framer, as `CHUNK CHUNK ..`: after each chunk all that is ready is taken.
use crate::hexadecimal;
use frame_parser_rules::State;
use std::io;

fn comma(rt: &impl Print, frames: usize) -> io::Result<()> {
    if 0 < frames {
        print!(rt; ",")?;
    }
    Ok(())
}

// Behind the frames that were taken: a refusal, or `-` where there was no frame.
fn last_word(rt: &impl Print, frames: usize, number: u32) -> io::Result<()> {
    if 0 < number {
        comma(rt, frames)?;
        print!(rt; "!{number}")?;
    } else if frames == 0 {
        print!(rt; "-")?;
    }
    Ok(())
}

// A frame has a byte at least, and the store 16,384 at the most.
fn take_all(rt: &impl Print, fresh: State, store: &mut [u8]) -> io::Result<State> {
    let mut output = [0u8; 8192];
    let mut state = fresh;
    for frames in 0..16384 {
        let outcome = frame_parser::take(state, store, &mut output);
        let answer = outcome.answer;
        let length = frame_answers::parser_length(answer);
        state = outcome.state;
        if length == 0 {
            last_word(rt, frames, frame_answers::parser_number(answer))?;
            break;
        }
        comma(rt, frames)?;
        hexadecimal::say(rt, sample_texts::first(&output, length))?;
    }
    Ok(state)
}

fn chunk(rt: &impl Print, state: State, store: &mut [u8], text: &[u8]) -> io::Result<State> {
    let mut space = [0u8; 2000];
    let size = hexadecimal::read(&mut space, text);
    let outcome = frame_parser::push(state, store, sample_texts::first(&space, size));
    let pushed = outcome.state;
    let number = frame_answers::parser_number(outcome.answer);
    if 0 < number {
        print!(rt; "!{number}")?;
        return Ok(pushed);
    }
    take_all(rt, pushed, store)
}

fn chunks(rt: &impl Print, store: &mut [u8], text: &[u8]) -> io::Result<()> {
    let mut state = frame_parser::reset();
    for (i, piece) in text.split_inclusive(|&byte| byte == b' ').enumerate() {
        if 0 < i {
            print!(rt; " ")?;
        }
        state = chunk(rt, state, store, sample_texts::before(piece, b' '))?;
    }
    Ok(())
}

pub fn frames(rt: &impl Print, text: &[u8]) -> io::Result<()> {
    let mut store = [0u8; 16384];
    chunks(rt, &mut store, text)
}
