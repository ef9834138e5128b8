// frame_parser: the ported framer. Chunks of a stream go in at the end of a lent store, whole messages come out at its front, cut by
// their announced lengths alone. It never looks for a message's start, checks no CheckSum and knows no field but by its position.
#![tactic(auto)]

ghost use Rattle.std.specs.Prelude.{◌≡◌, ◌*◌, ◌%◌, ◌^◌, ◌≤◌, length, take, drop};
ghost use Rattle.frame_parser_rules.specs.Announced.{nominal, find_from, value_from, announced_in};
ghost use Rattle.frame_parser_rules.specs.Framer.{unusable, fresh, only_mark, answers_with, ready_of, moved_to_front, pushed, pushed_store, finished, taken, taken_store, taken_output};

use frame_parser_rules::{Announced, Answer, Outcome, State};

const SEPARATOR: u8 = 1;

const EQUALS: u8 = b'=';

const MESSAGE_LIMIT: usize = 8192;

const STORE_SIZE: usize = 16384;

const CHECKSUM_SIZE: usize = 7;

// The multiply, made of wrapping additions: the rules name this form, whatever other the language offers.
fn ten_times(n: u64) -> u64
    ensures { result ≡ n * 10 % 2 ^ 64 }
{
    let two = n.wrapping_add(n);
    let four = two.wrapping_add(two);
    let eight = four.wrapping_add(four);
    eight.wrapping_add(two)
}

// The number that a BodyLength's text makes, whatever its bytes are.
fn nominal_length(text: &[u8]) -> u64
    ensures { result ≡ nominal 0 text.now }
{
    let mut n: u64 = 0;
    for &byte in text {
        let digit = byte.wrapping_sub(b'0');
        n = ten_times(n).wrapping_add(u64::from(digit));
    }
    n
}

// The first place of a byte from a place on.
fn find_from(bytes: &[u8], at: usize, wanted: u8) -> Option<usize>
    ensures { result ≡ find_from wanted at bytes.now }
{
    if bytes.len() < at {
        return None;
    }
    let Some(offset) = field_tagvalue::find(&bytes[at..], wanted) else {
        return None;
    };
    Some(at + offset)
}

// Where the value behind the first `=` from a place on starts, and where the separator behind it stands.
fn value_from(held: &[u8], at: usize) -> Option<(usize, usize)>
    ensures { result ≡ value_from at held.now }
{
    let Some(equals) = find_from(held, at, EQUALS) else {
        return None;
    };
    let first = equals + 1;
    let Some(last) = find_from(held, first, SEPARATOR) else {
        return None;
    };
    Some((first, last))
}

// The length is read between the second `=` and its separator.
fn announced_in(held: &[u8]) -> Announced
    ensures { result ≡ announced_in held.now }
{
    let Some((_, begin_end)) = value_from(held, 0) else {
        return Announced::Unknown;
    };
    let Some((first, last)) = value_from(held, begin_end + 1) else {
        return Announced::Unknown;
    };
    let length = nominal_length(&held[first..last]);
    let head = last + 1 + CHECKSUM_SIZE;
    if MESSAGE_LIMIT < head {
        return Announced::Over;
    }
    // The sum is not made before it is known to be small: it may pass 2^64.
    if ((MESSAGE_LIMIT - head) as u64) < length {
        return Announced::Over;
    }
    Announced::Ends(head + length as usize)
}

// Moves the bytes from `first` up to `end` to the front.
fn move_to_front(store: &mut [u8], first: usize, end: usize)
    requires { (first ≤ end) × (end ≤ length store.old) }
    ensures { store.new ≡ moved_to_front (drop first (take end store.old)) store.old }
{
    store.copy_within(first..end, 0);
}

fn answers(state: State, answer: Answer) -> Outcome
    ensures { result ≡ answers_with state answer }
{
    Outcome { state, answer }
}

// 20 keeps only its mark.
#[tactic(auto, unfolding(frame_parser_rules::specs::Framer::only_mark))]
fn over_long() -> Outcome
    ensures { result ≡ answers_with only_mark Answer.OverLong }
{
    let mark = State {
        used: 0,
        ended: false,
        over: true,
    };
    Outcome {
        state: mark,
        answer: Answer::OverLong,
    }
}

// How long the message is that can be handed out, 0 where none is ready yet; none where it is refused for its length.
#[tactic(auto, unfolding(frame_parser_rules::specs::Framer::ready_of))]
fn ready_of(announced: Announced, used: usize) -> Option<usize>
    ensures { result ≡ ready_of used announced }
{
    match announced {
        Announced::Ends(end) => { if end <= used { Some(end) } else { Some(0) } }
        Announced::Over => None,
        Announced::Unknown => Some(0),
    }
}

// 27: the store has another size, or the used length lies past it.
#[tactic(auto, unfolding(frame_parser_rules::specs::Framer::unusable))]
fn is_unusable(used: usize, store: &[u8]) -> bool
    ensures { result ≡ unusable used store.now }
{
    store.len() != STORE_SIZE || STORE_SIZE < used
}

// A fresh, empty state. What the store holds does not matter.
#[tactic(auto, unfolding(frame_parser_rules::specs::Framer::fresh))]
pub fn reset() -> State
    ensures { result ≡ fresh }
{
    State {
        used: 0,
        ended: false,
        over: false,
    }
}

// A chunk of the stream, put behind the bytes that are held.
pub fn push(state: State, store: &mut [u8], chunk: &[u8]) -> Outcome
    ensures value { result ≡ pushed state store.old chunk.now }
    ensures store_after { store.new ≡ pushed_store state store.old chunk.now }
{
    let used = state.used;
    if is_unusable(used, store) {
        return answers(state, Answer::BadStore);
    }
    if state.ended {
        return answers(state, Answer::AfterEnd);
    }
    if state.over {
        return answers(state, Answer::OverLong);
    }
    if STORE_SIZE - used < chunk.len() {
        return answers(state, Answer::StoreFull);
    }
    copies::copy(chunk, &mut store[used..]);
    let next = State {
        used: used + chunk.len(),
        ..state
    };
    answers(next, Answer::Accepted)
}

// The stream's end: no chunk may follow it.
pub fn end(state: State, store: &[u8]) -> Outcome
    ensures { result ≡ finished state store.now }
{
    if is_unusable(state.used, store) {
        return answers(state, Answer::BadStore);
    }
    if state.ended {
        return answers(state, Answer::AfterEnd);
    }
    if state.over {
        return answers(state, Answer::OverLong);
    }
    let next = State {
        ended: true,
        ..state
    };
    answers(next, Answer::Accepted)
}

// The message at the front, if it is whole: copied to the output, and the bytes behind it moved to the front.
pub fn take(state: State, store: &mut [u8], output: &mut [u8]) -> Outcome
    ensures value { result ≡ taken state store.old output.old }
    ensures store_after { store.new ≡ taken_store state store.old output.old }
    ensures output_after { output.new ≡ taken_output state store.old output.old }
{
    let used = state.used;
    if is_unusable(used, store) {
        return answers(state, Answer::BadStore);
    }
    if output.len() < MESSAGE_LIMIT {
        return answers(state, Answer::ShortOutput);
    }
    if state.over {
        return over_long();
    }
    let Some(length) = ready_of(announced_in(&store[..used]), used) else {
        return over_long();
    };
    if length == 0 {
        return answers(state, Answer::Message(0));
    }
    copies::copy(&store[..length], output);
    move_to_front(store, length, used);
    let next = State {
        used: used - length,
        ..state
    };
    answers(next, Answer::Message(length))
}
