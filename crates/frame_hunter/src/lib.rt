// frame_hunter: the hunting framer. It finds the frames in a stream that may be damaged, the same ones however the stream was cut into chunks, and
// drops the places at which none can start.
// It may not keep anything: the caller lends store and output to each call, and hands the state on as it was returned. And it may not
// judge a place: `frame_verdict` does.
#![tactic(auto)]

ghost use Rattle.std.specs.Prelude.{◌≡◌, ◌-◌, ◌≤◌, ◌++◌, length, take, drop};
ghost use Rattle.frame_verdict_rules.specs.Verdict.{verdict_of};
ghost use Rattle.frame_hunter_rules.specs.Hunt.{act_on, hunt_from};
ghost use Rattle.frame_hunter_rules.specs.Bytes.{unfit, refused_take_lem, fresh_state, Pushes, Finishes, Takes};

use frame_hunter_rules::{Act, Answer, Hunted, Reply, State, Taken};
use frame_verdict_rules::Verdict;

const STORE_SIZE: usize = 16384;

const FRAME_MOST: usize = 8192;

// What the hunt does at a place of this verdict.
#[tactic(auto, unfolding(frame_hunter_rules::specs::Hunt::act_on))]
fn act_on(verdict: Verdict, ended: bool) -> Act
    ensures { result ≡ act_on ended verdict }
{
    match verdict {
        Verdict::Frame(n) => Act::Hand(n),
        Verdict::Never => Act::Pass,
        Verdict::Wait if ended => Act::Pass,
        Verdict::Wait => Act::Stop,
    }
}

// "Only a take moves, place by place while bytes last". After a dropped place the hunt goes on at the next byte.
fn hunt(held: &[u8], ended: bool) -> Hunted
    ensures { result ≡ hunt_from verdict_of ended held.now }
{
    for place in 0..held.len() {
        match act_on(frame_verdict::verdict_of(&held[place..]), ended) {
            Act::Hand(length) => {
                return Hunted {
                    passed: place,
                    length,
                };
            }
            Act::Stop => {
                return Hunted {
                    passed: place,
                    length: 0,
                };
            }
            Act::Pass => {}
        }
    }
    Hunted {
        passed: held.len(),
        length: 0,
    }
}

// Moves the bytes from `from` up to `to` to the front of the store. A take that waits where it waited before moves nothing.
fn keep(store: &mut [u8], from: usize, to: usize)
    requires { (from ≤ to) × (to ≤ length store.old) }
    ensures { store.new ≡ take (to - from) (drop from store.old) ++ drop (to - from) store.old }
{
    if from == 0 {
        return;
    }
    store.copy_within(from..to, 0);
}

// 27 comes before every other number.
#[tactic(auto, unfolding(frame_hunter_rules::specs::Bytes::unfit))]
fn unfit_store(state: State, size: usize) -> bool
    ensures { result ≡ unfit state size }
{
    size != STORE_SIZE || STORE_SIZE < state.used
}

// A chunk: 27, 26, 25, or it is put behind the bytes held. However long, it is taken if it fits.
pub fn push(state: State, store: &mut [u8], chunk: &[u8]) -> Reply
    ensures { Pushes state store.old chunk.now result store.new }
{
    if unfit_store(state, store.len()) {
        return Reply {
            answer: Answer::BadStore,
            state,
        };
    }
    if state.ended {
        return Reply {
            answer: Answer::AfterEnd,
            state,
        };
    }
    let used = state.used;
    if STORE_SIZE - used < chunk.len() {
        return Reply {
            answer: Answer::StoreFull,
            state,
        };
    }
    let more = copies::copy(chunk, &mut store[used..]);
    let next = State {
        used: used + more,
        ended: false,
        ..state
    };
    Reply {
        answer: Answer::Fine,
        state: next,
    }
}

// The end of the stream: 27, 26, or the mark. It moves nothing; the next take does.
pub fn end(state: State, store: &[u8]) -> Reply
    ensures { Finishes state store.now result }
{
    if unfit_store(state, store.len()) {
        return Reply {
            answer: Answer::BadStore,
            state,
        };
    }
    if state.ended {
        return Reply {
            answer: Answer::AfterEnd,
            state,
        };
    }
    let next = State {
        ended: true,
        ..state
    };
    Reply {
        answer: Answer::Fine,
        state: next,
    }
}

// A refused take moves nothing.
#[tactic(auto, unfolding(frame_hunter_rules::specs::Bytes::refused_take_lem))]
fn untaken(state: State, answer: Answer) -> Taken
    ensures { result ≡ refused_take_lem state answer }
{
    Taken {
        answer,
        length: 0,
        state,
    }
}

// A take: 27, 23, or the first frame, if one is ready, written at the start of the output. What comes after it is kept.
pub fn take(state: State, store: &mut [u8], output: &mut [u8]) -> Taken
    ensures { Takes state store.old output.old result store.new output.new }
{
    if unfit_store(state, store.len()) {
        return untaken(state, Answer::BadStore);
    }
    if output.len() < FRAME_MOST {
        return untaken(state, Answer::OutputShort);
    }
    let used = state.used;
    let hunted = hunt(&store[..used], state.ended);
    let frame = hunted.passed;
    let rest = frame + hunted.length;
    let length = copies::copy(&store[frame..rest], output);
    keep(store, rest, used);
    let next = State {
        used: used - rest,
        dropped: state.dropped.wrapping_add(frame as u64),
        ended: state.ended,
    };
    Taken {
        answer: Answer::Fine,
        length,
        state: next,
    }
}

// "Reset gives a fresh, empty state." It takes nothing: whatever the old state held is forgotten.
#[tactic(auto, unfolding(frame_hunter_rules::specs::Bytes::fresh_state, frame_hunter_rules::specs::Bytes::state_of))]
pub fn reset() -> State
    ensures { result ≡ fresh_state }
{
    State {
        used: 0,
        dropped: 0,
        ended: false,
    }
}
