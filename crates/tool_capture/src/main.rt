// tool_capture: hunts the stream on standard input, of any length, and says how much of it was frames and how much was dropped.
// It is what the framer's speed is measured with; it keeps no frame.
#![tactic(auto)]

use sample_kit::reading;
use std::io;
use std::io::Read;

// Chunks of 8,192 bytes that are read at the most: the program ends on every input.
const CHUNKS: u64 = 0x1_0000_0000;

#[derive(Clone, Copy, Default)]
struct Counts {
    frames: u64,
    bytes: u64,
}

fn with_frame(counts: Counts, length: usize) -> Counts {
    Counts {
        frames: counts.frames.wrapping_add(1),
        bytes: counts.bytes.wrapping_add(length as u64),
    }
}

#[derive(Clone, Copy)]
struct Hunting {
    state: frame_hunter_rules::State,
    counts: Counts,
}

// All that is ready is taken.
fn hunted(hunting: Hunting, store: &mut [u8], output: &mut [u8]) -> Hunting {
    let mut state = hunting.state;
    let mut counts = hunting.counts;
    for _ in 0..16384 {
        let taken = frame_hunter::take(state, store, output);
        let length = taken.length;
        state = taken.state;
        if length == 0 {
            break;
        }
        counts = with_frame(counts, length);
    }
    Hunting { state, counts }
}

fn given(hunting: Hunting, chunk: &[u8], store: &mut [u8], output: &mut [u8]) -> Hunting {
    let reply = frame_hunter::push(hunting.state, store, chunk);
    let state = reply.state;
    hunted(Hunting { state, ..hunting }, store, output)
}

fn finished(hunting: Hunting, store: &mut [u8], output: &mut [u8]) -> Hunting {
    let reply = frame_hunter::end(hunting.state, store);
    let state = reply.state;
    hunted(Hunting { state, ..hunting }, store, output)
}

fn report(rt: &impl Print, hunting: Hunting) -> io::Result<()> {
    let Hunting { state, counts } = hunting;
    println!(rt; "frames {}", counts.frames)?;
    println!(rt; "bytes in frames {}", counts.bytes)?;
    println!(rt; "places dropped {}", state.dropped)?;
    println!(rt; "bytes held {}", state.used)
}

// The stream, chunk by chunk, to its end.
fn hunt(
    input: &mut impl Read,
    chunk: &mut [u8],
    store: &mut [u8],
    output: &mut [u8],
) -> io::Result<Hunting> {
    let mut hunting = Hunting {
        state: frame_hunter::reset(),
        counts: Counts::default(),
    };
    for _ in 0..CHUNKS {
        let n = reading::full(input, chunk)?;
        if n == 0 {
            break;
        }
        hunting = given(hunting, &chunk[..n], store, output);
    }
    Ok(finished(hunting, store, output))
}

fn main(rt: HostRuntime) -> io::Result<()> {
    let mut store = [0u8; 16384];
    let mut output = [0u8; 8192];
    let mut chunk = [0u8; 8192];
    let hunting = hunt(&mut rt.stdin(), &mut chunk, &mut store, &mut output)?;
    report(&rt, hunting)
}
