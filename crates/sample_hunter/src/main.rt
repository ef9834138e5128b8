// sample_hunter: what the hunting framer answers to the streams and the call orders that the rules tell of. The lines of `stdout` were written
// from the rules by hand.
// Its script (see sample_kit) has these words, each a call on the state in hand. Behind the letter stands what the line shows behind the call's
// name, with `|` for a space, and behind the colon what the call is given:
//   R            a fresh state, and no line
//   p|one:x  e   push these bytes; end
//   t  T         take; take into an output of 8191 bytes
//   m:26         take, and show so many bytes of the output
//   c5:8=F|      these bytes as a stream of its own, cut behind so many: a point where it is right
//   l16383  x    lend so many bytes of the store, until the next fresh state; a used length of 16385, ended, 7 places dropped
#![tactic(auto)]

use frame_hunter_rules::{Answer, Reply, State, Taken};
use sample_kit::{saying, scripts};
use sample_texts::messages;
use std::io;

const STORE: usize = 16384;

// The state in hand, and how many bytes of the store are lent.
#[derive(Clone, Copy)]
struct Held {
    state: State,
    lent: usize,
}

fn answered(rt: &impl Print, name: &str, piece: &[u8], answer: Answer) -> io::Result<()> {
    let mut space = [0u8; 100];
    let shown = sample_texts::before(sample_texts::from(piece, 1), b':');
    let size = messages::spell(&mut space, 0, shown, b' ');
    print!(rt; "\n{name}")?;
    rt.write_all(sample_texts::first(&space, size))?;
    print!(rt; " {}", frame_answers::hunter_number(answer))
}

fn told(rt: &impl Print, name: &str, piece: &[u8], reply: Reply) -> io::Result<State> {
    answered(rt, name, piece, reply.answer)?;
    print!(rt; " used {}", reply.state.used)?;
    Ok(reply.state)
}

fn push(rt: &impl Print, state: State, store: &mut [u8], piece: &[u8]) -> io::Result<State> {
    let mut chunk = [0u8; 16385];
    let size = messages::spell(&mut chunk, 0, sample_texts::behind(piece, b':'), 1);
    let reply = frame_hunter::push(state, store, sample_texts::first(&chunk, size));
    told(rt, "push", piece, reply)
}

fn taken(rt: &impl Print, piece: &[u8], taken: Taken, output: &[u8]) -> io::Result<State> {
    let state = taken.state;
    answered(rt, "take", piece, taken.answer)?;
    print!(rt;
        " length {} used {} dropped {}",
        taken.length, state.used, state.dropped
    )?;
    if piece.starts_with(b"m") {
        let size = sample_texts::number(sample_texts::behind(piece, b':')) as usize;
        println!(rt;)?;
        saying::bytes(rt, sample_texts::first(output, size))?;
    }
    Ok(state)
}

fn take(rt: &impl Print, state: State, store: &mut [u8], piece: &[u8]) -> io::Result<State> {
    let mut output = [0u8; 8192];
    let answered = frame_hunter::take(state, store, &mut output);
    taken(rt, piece, answered, &output)
}

fn take_short(rt: &impl Print, state: State, store: &mut [u8], piece: &[u8]) -> io::Result<State> {
    let mut output = [0u8; 8191];
    let answered = frame_hunter::take(state, store, &mut output);
    taken(rt, piece, answered, &output)
}

// Of P2 and then P1, however cut, P1 is handed out once and 26 places are dropped.
fn right(state: State, first: usize, second: usize, third: usize, last: usize) -> bool {
    let once = matches!((first, second), (26, 0) | (0, 26));
    state.used == 0 && state.dropped == 26 && third == 0 && last == 0 && once
}

// A stream in two chunks, all that is ready being taken after each and after the end.
fn cut(rt: &impl Print, one: &[u8], two: &[u8]) -> io::Result<()> {
    let mut store = [0u8; STORE];
    let mut output = [0u8; 8192];
    let given = frame_hunter::push(frame_hunter::reset(), &mut store, one);
    let first = frame_hunter::take(given.state, &mut store, &mut output);
    let given = frame_hunter::push(first.state, &mut store, two);
    let second = frame_hunter::take(given.state, &mut store, &mut output);
    let third = frame_hunter::take(second.state, &mut store, &mut output);
    let ended = frame_hunter::end(third.state, &store);
    let last = frame_hunter::take(ended.state, &mut store, &mut output);
    let is_right = right(
        last.state,
        first.length,
        second.length,
        third.length,
        last.length,
    );
    print!(rt; "{}", if is_right { '.' } else { 'x' })
}

fn cut_at(rt: &impl Print, text: &[u8]) -> io::Result<()> {
    let mut space = [0u8; 100];
    let at = sample_texts::number(sample_texts::before(text, b':')) as usize;
    let size = messages::spell(&mut space, 0, sample_texts::behind(text, b':'), 1);
    let stream = sample_texts::first(&space, size);
    cut(
        rt,
        sample_texts::first(stream, at),
        sample_texts::from(stream, at),
    )
}

fn call(rt: &impl Print, state: State, store: &mut [u8], piece: &[u8]) -> io::Result<State> {
    match sample_texts::first_byte(piece) {
        b'p' => return push(rt, state, store, piece),
        b'e' => return told(rt, "end", piece, frame_hunter::end(state, store)),
        b't' | b'm' => return take(rt, state, store, piece),
        b'T' => return take_short(rt, state, store, piece),
        b'c' => cut_at(rt, sample_texts::from(piece, 1))?,
        _ => saying::piece(rt, piece, b"")?,
    }
    Ok(state)
}

fn fresh() -> Held {
    Held {
        state: frame_hunter::reset(),
        lent: STORE,
    }
}

// What a word does to what is in hand, before its call.
fn set(held: Held, piece: &[u8]) -> Held {
    match sample_texts::first_byte(piece) {
        b'R' => fresh(),
        b'l' => Held {
            lent: sample_texts::number(sample_texts::from(piece, 1)) as usize,
            ..held
        },
        b'x' => Held {
            state: State {
                used: 16385,
                dropped: 7,
                ended: true,
            },
            lent: STORE,
        },
        _ => held,
    }
}

fn step(rt: &impl Print, before: Held, store: &mut [u8], piece: &[u8]) -> io::Result<Held> {
    let held = set(before, piece);
    let lent = held.lent;
    if lent <= store.len() {
        return Ok(Held {
            state: call(rt, held.state, &mut store[..lent], piece)?,
            lent,
        });
    }
    Ok(held)
}

fn play(rt: &impl Print, script: &[u8], store: &mut [u8]) -> io::Result<()> {
    let mut held = fresh();
    for piece in script.split(|&byte| byte == b'\n') {
        held = step(rt, held, store, piece)?;
    }
    Ok(())
}

fn main(rt: HostRuntime) -> io::Result<()> {
    let mut script = scripts::room();
    let mut store = [0u8; STORE];
    let size = scripts::read(&mut rt.stdin(), &mut script)?;
    play(&rt, sample_texts::first(&script, size), &mut store)
}
