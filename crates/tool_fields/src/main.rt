// tool_fields: shows the stream on standard input, of any length: the fields of each message with their places, whether BodyLength and CheckSum
// are right, and what was dropped between. The separator is 0x01. It knows no dictionary, and judges nothing else.
#![tactic(auto)]

mod counting;
mod dropped;
mod fields;
mod integrity;
mod saying;

use counting::Counts;
use dropped::Run;
use frame_hunter_rules::{State, Taken};
use sample_kit::reading;
use std::io;
use std::io::Read;

// Chunks of 8,192 bytes that are read at the most: the program ends on every input.
const CHUNKS: u64 = 0x1_0000_0000;

// `place` is that of the first byte that the framer holds, and the run that of the bytes dropped right before it.
#[derive(Clone, Copy)]
struct Showing {
    state: State,
    place: u64,
    run: Run,
    counts: Counts,
}

// The field with which a frame ends is `10=`, three digits and the separator.
fn checksum_place(frame: &[u8]) -> usize {
    frame.len().checked_sub(7).unwrap_or(frame.len())
}

fn message(rt: &impl Print, frame: &[u8], place: u64, counts: Counts) -> io::Result<Counts> {
    let number = counts.messages.wrapping_add(1);
    println!(rt; "message {number} at {place}, {} bytes", frame.len())?;
    let repeated = fields::listed(rt, frame, place, true)?;
    integrity::judged(rt, frame, checksum_place(frame), true)?;
    fields::repeats(rt, repeated)?;
    Ok(counts.with_message(fields::is_repeating(repeated)))
}

// What a take passed, and the frame that it handed out behind that; none, where that is empty.
fn taken_over(
    rt: &impl Print,
    showing: Showing,
    passed: &[u8],
    frame: &[u8],
    state: State,
    memory: &mut [u8],
) -> io::Result<Showing> {
    let run = dropped::more(showing.run, passed, memory);
    let place = showing.place.wrapping_add(passed.len() as u64);
    let counts = showing.counts;
    if frame.is_empty() {
        return Ok(Showing {
            state,
            place,
            run,
            counts,
        });
    }
    dropped::show(rt, run, memory)?;
    let counts = message(rt, frame, place, counts.with_run(run))?;
    let place = place.wrapping_add(frame.len() as u64);
    let run = dropped::none(place);
    Ok(Showing {
        state,
        place,
        run,
        counts,
    })
}

// What a take answered, told by the bytes that were held when the takes began, from the place `first` on.
fn told(
    rt: &impl Print,
    showing: Showing,
    taken: Taken,
    held: &[u8],
    first: u64,
    output: &[u8],
    memory: &mut [u8],
) -> io::Result<Showing> {
    let state = taken.state;
    let at = showing.place.wrapping_sub(first);
    let size = state.dropped.wrapping_sub(showing.state.dropped);
    let passed = sample_texts::part(held, at as usize, size as usize);
    let frame = sample_texts::first(output, taken.length);
    taken_over(rt, showing, passed, frame, state, memory)
}

// All that is ready is taken.
fn taken(
    rt: &impl Print,
    showing: Showing,
    held: &[u8],
    store: &mut [u8],
    memory: &mut [u8],
) -> io::Result<Showing> {
    let mut output = [0u8; 8192];
    let first = showing.place;
    let mut now = showing;
    for _ in 0..16384 {
        let taken = frame_hunter::take(now.state, store, &mut output);
        now = told(rt, now, taken, held, first, &output, memory)?;
        if taken.length == 0 {
            break;
        }
    }
    Ok(now)
}

// Takes from a store that was just given bytes, or the end. A take moves what is held, so a copy of it tells what was passed.
fn drained(
    rt: &impl Print,
    showing: Showing,
    state: State,
    store: &mut [u8],
    memory: &mut [u8],
) -> io::Result<Showing> {
    let mut held = [0u8; 16384];
    sample_texts::copy(&mut held, 0, store);
    taken(rt, Showing { state, ..showing }, &held, store, memory)
}

fn given(
    rt: &impl Print,
    showing: Showing,
    chunk: &[u8],
    store: &mut [u8],
    memory: &mut [u8],
) -> io::Result<Showing> {
    let reply = frame_hunter::push(showing.state, store, chunk);
    drained(rt, showing, reply.state, store, memory)
}

// At the end of the stream, what is held and is no message is dropped.
fn finished(
    rt: &impl Print,
    showing: Showing,
    store: &mut [u8],
    memory: &mut [u8],
) -> io::Result<Counts> {
    let reply = frame_hunter::end(showing.state, store);
    let last = drained(rt, showing, reply.state, store, memory)?;
    dropped::show(rt, last.run, memory)?;
    Ok(last.counts.with_run(last.run))
}

// The stream, chunk by chunk, to its end.
fn shown(
    rt: &impl Print,
    input: &mut impl Read,
    store: &mut [u8],
    memory: &mut [u8],
) -> io::Result<Counts> {
    let mut chunk = [0u8; 8192];
    let mut showing = Showing {
        state: frame_hunter::reset(),
        place: 0,
        run: dropped::none(0),
        counts: Counts::default(),
    };
    for _ in 0..CHUNKS {
        let n = reading::full(input, &mut chunk)?;
        if n == 0 {
            break;
        }
        showing = given(rt, showing, &chunk[..n], store, memory)?;
    }
    finished(rt, showing, store, memory)
}

fn main(rt: HostRuntime) -> io::Result<()> {
    let mut store = [0u8; 16384];
    let mut memory = [0u8; 8192];
    counting::summary(&rt, shown(&rt, &mut rt.stdin(), &mut store, &mut memory)?)
}
