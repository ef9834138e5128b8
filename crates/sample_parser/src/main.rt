// sample_parser: runs the ported framer on the cases that the rules name, and writes a line for each call: its number, a take's length, and
// the state that is left. The lines of `stdout` come from 01.
// Its script (see sample_kit) has these words, each a call on the state in hand:
//   r  R        reset; the same and no line
//   p8=F|  e    push these bytes; end
//   t  T        take; take into an output of 8191 bytes
//   m30,33      take, and show so many bytes of the output and of the store
//   c5:8=F|     of these bytes as a stream of its own, cut behind so many: how many came out after each of the two chunks
//   l16383  x   lend so many bytes of the store, until the next reset; a used length of 16385, ended and over
#![tactic(auto)]

use frame_parser_rules::{Answer, Outcome, State};
use sample_kit::{saying, scripts};
use sample_texts::messages;
use std::io;

const STORE: usize = 16384;

// The state in hand, and how many bytes of the store are lent.
#[derive(Clone, Copy)]
struct Held {
    state: State,
    lent: usize,
}

fn shown(rt: &impl Print, state: State) -> io::Result<State> {
    print!(rt; " used {}", state.used)?;
    if state.ended {
        print!(rt; " ended")?;
    }
    if state.over {
        print!(rt; " over")?;
    }
    println!(rt;)?;
    Ok(state)
}

fn told(rt: &impl Print, name: &str, outcome: Outcome) -> io::Result<State> {
    print!(rt; "{name} {}", frame_answers::parser_number(outcome.answer))?;
    if let Answer::Message(length) = outcome.answer {
        print!(rt; " length {length}")?;
    }
    shown(rt, outcome.state)
}

fn push(rt: &impl Print, state: State, store: &mut [u8], text: &[u8]) -> io::Result<State> {
    let mut chunk = [0u8; 16385];
    let size = messages::spell(&mut chunk, 0, text, 1);
    let chunk = sample_texts::first(&chunk, size);
    told(rt, "push", frame_parser::push(state, store, chunk))
}

fn take(rt: &impl Print, state: State, store: &mut [u8], shown: &[u8]) -> io::Result<State> {
    let mut output = [0u8; 8192];
    let left = told(rt, "take", frame_parser::take(state, store, &mut output))?;
    if !shown.is_empty() {
        let of_output = sample_texts::number_at(shown, b',', 0) as usize;
        let of_store = sample_texts::number_at(shown, b',', 1) as usize;
        saying::bytes(rt, sample_texts::first(&output, of_output))?;
        println!(rt;)?;
        saying::bytes(rt, sample_texts::first(store, of_store))?;
        println!(rt;)?;
    }
    Ok(left)
}

fn take_short(rt: &impl Print, state: State, store: &mut [u8]) -> io::Result<State> {
    let mut output = [0u8; 8191];
    let outcome = frame_parser::take(state, store, &mut output);
    told(rt, "take into 8191", outcome)
}

// How much of a stream came out, message by message.
#[derive(Clone, Copy)]
struct Came {
    state: State,
    bytes: usize,
}

// A take; its message counts where it is the one that the stream has there.
fn take_next(came: Came, store: &mut [u8], stream: &[u8]) -> Came {
    let mut output = [0u8; 8192];
    let outcome = frame_parser::take(came.state, store, &mut output);
    let state = outcome.state;
    let length = frame_answers::parser_length(outcome.answer);
    let mut bytes = came.bytes;
    if sample_texts::part(stream, bytes, length) == sample_texts::first(&output, length) {
        bytes = bytes % 8192 + length % 8193;
    }
    Came { state, bytes }
}

// A chunk, and takes enough for two messages and the answer 0.
fn chunk(came: Came, store: &mut [u8], chunk: &[u8], stream: &[u8]) -> Came {
    let state = frame_parser::push(came.state, store, chunk).state;
    let mut now = Came { state, ..came };
    for _ in 0..3 {
        now = take_next(now, store, stream);
    }
    now
}

fn cut(rt: &impl Print, text: &[u8]) -> io::Result<()> {
    let mut store = [0u8; STORE];
    let mut space = [0u8; 100];
    let at = sample_texts::number(sample_texts::before(text, b':')) as usize;
    let size = messages::spell(&mut space, 0, sample_texts::behind(text, b':'), 1);
    let stream = sample_texts::first(&space, size);
    let state = frame_parser::reset();
    let some = chunk(
        Came { state, bytes: 0 },
        &mut store,
        sample_texts::first(stream, at),
        stream,
    );
    let all = chunk(some, &mut store, sample_texts::from(stream, at), stream);
    println!(rt; "{} {}", some.bytes, all.bytes)
}

fn call(rt: &impl Print, state: State, store: &mut [u8], piece: &[u8]) -> io::Result<State> {
    let text = sample_texts::from(piece, 1);
    match sample_texts::first_byte(piece) {
        b'p' => return push(rt, state, store, text),
        b'e' => return told(rt, "end", frame_parser::end(state, store)),
        b't' | b'm' => return take(rt, state, store, text),
        b'T' => return take_short(rt, state, store),
        b'c' => cut(rt, text)?,
        b'-' => saying::piece(rt, piece, b"")?,
        _ => {}
    }
    Ok(state)
}

// What a word does to what is in hand, before its call.
fn set(rt: &impl Print, held: Held, piece: &[u8]) -> io::Result<Held> {
    let fresh = Held {
        state: frame_parser::reset(),
        lent: STORE,
    };
    match sample_texts::first_byte(piece) {
        b'r' => {
            print!(rt; "reset")?;
            shown(rt, frame_parser::reset())?;
            Ok(fresh)
        }
        b'R' => Ok(fresh),
        b'l' => Ok(Held {
            lent: sample_texts::number(sample_texts::from(piece, 1)) as usize,
            ..held
        }),
        b'x' => Ok(Held {
            state: State {
                used: 16385,
                ended: true,
                over: true,
            },
            lent: STORE,
        }),
        _ => Ok(held),
    }
}

fn step(rt: &impl Print, before: Held, store: &mut [u8], piece: &[u8]) -> io::Result<Held> {
    let held = set(rt, before, piece)?;
    let lent = held.lent;
    if lent <= store.len() {
        return Ok(Held {
            state: call(rt, held.state, &mut store[..lent], piece)?,
            lent,
        });
    }
    Ok(held)
}

fn play(rt: &impl Print, script: &[u8], store: &mut [u8]) -> io::Result<()> {
    let mut held = Held {
        state: frame_parser::reset(),
        lent: STORE,
    };
    for piece in script.split(|&byte| byte == b'\n') {
        held = step(rt, held, store, piece)?;
    }
    Ok(())
}

fn main(rt: HostRuntime) -> io::Result<()> {
    let mut script = scripts::room();
    let mut store = [0u8; STORE];
    let size = scripts::read(&mut rt.stdin(), &mut script)?;
    play(&rt, sample_texts::first(&script, size), &mut store)
}
