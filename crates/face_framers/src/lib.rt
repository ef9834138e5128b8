// face_framers: the framers' calls over states as a caller lends them: plain numbers, where a mark is set if its byte isn't 0, so that every
// content of a state is one. A mark that stays set keeps its byte. Each call hands the state to its framer and tells the answer; it decides nothing.
#![tactic(auto)]

ghost use Rattle.std.specs.Prelude.{◌≡◌};
ghost use Rattle.face_told.specs.Told.{told};
ghost use Rattle.frame_parser_rules.specs.Framer.{length_returned, pushed, pushed_store, finished, taken, taken_store, taken_output};
ghost use Rattle.frame_hunter_rules.specs.Bytes.{pushed as hunter_pushed, finished as hunter_finished, took_from};
ghost use Rattle.face_framers.specs.States.{is_set, mark_left, ported_in, ported_told, ported_reset, hunter_in, hunter_told, hunter_reset};

// The ported framer's state: how many bytes of the store are used, and whether the end, or a length over 8,192 bytes, was met.
#[repr(C)]
#[derive(Clone, Copy)]
pub struct PortedState {
    pub used: usize,
    pub ended: u8,
    pub over: u8,
}

// The hunting framer's state: how many bytes of the store are used, how many were dropped, and whether the end was met.
#[repr(C)]
#[derive(Clone, Copy)]
pub struct HunterState {
    pub used: usize,
    pub dropped: u64,
    pub ended: u8,
}

#[derive(Clone, Copy)]
pub struct PortedReply {
    pub state: PortedState,
    pub number: u32,
}

#[derive(Clone, Copy)]
pub struct HunterReply {
    pub state: HunterState,
    pub number: u32,
}

#[tactic(auto, unfolding(crate::specs::States::is_set))]
fn is_set(mark: u8) -> bool
    ensures { result ≡ is_set mark }
{
    mark != 0
}

// "As it was": a set mark that stays set is the byte that was lent.
#[tactic(auto, unfolding(crate::specs::States::mark_left, crate::specs::States::is_set))]
fn mark_left(mark: u8, set: bool) -> u8
    ensures { result ≡ mark_left mark set }
{
    if set {
        if mark == 0 {
            return 1;
        }
        return mark;
    }
    0
}

#[tactic(auto, unfolding(crate::specs::States::ported_in))]
fn ported_in(state: PortedState) -> frame_parser_rules::State
    ensures { result ≡ ported_in state }
{
    frame_parser_rules::State {
        used: state.used,
        ended: is_set(state.ended),
        over: is_set(state.over),
    }
}

#[tactic(auto, unfolding(crate::specs::States::ported_out))]
fn ported_told(
    lent: PortedState,
    after: frame_parser_rules::State,
    answer: frame_parser_rules::Answer,
) -> PortedReply
    ensures { result ≡ ported_told lent after answer }
{
    let state = PortedState {
        used: after.used,
        ended: mark_left(lent.ended, after.ended),
        over: mark_left(lent.over, after.over),
    };
    PortedReply {
        state,
        number: frame_answers::parser_number(answer),
    }
}

#[tactic(auto, unfolding(crate::specs::States::hunter_in))]
fn hunter_in(state: HunterState) -> frame_hunter_rules::State
    ensures { result ≡ hunter_in state }
{
    frame_hunter_rules::State {
        used: state.used,
        dropped: state.dropped,
        ended: is_set(state.ended),
    }
}

#[tactic(auto, unfolding(crate::specs::States::hunter_out))]
fn hunter_told(
    lent: HunterState,
    after: frame_hunter_rules::State,
    answer: frame_hunter_rules::Answer,
) -> HunterReply
    ensures { result ≡ hunter_told lent after answer }
{
    let state = HunterState {
        used: after.used,
        dropped: after.dropped,
        ended: mark_left(lent.ended, after.ended),
    };
    HunterReply {
        state,
        number: frame_answers::hunter_number(answer),
    }
}

// A chunk of the stream for the ported framer.
pub fn ported_push(
    state: PortedState,
    store: &mut [u8],
    chunk: &[u8],
    out: &mut [u32; 4],
) -> PortedReply
    ensures { (result ≡ ported_told state (pushed (ported_in state) store.old chunk.now).state (pushed (ported_in state) store.old chunk.now).answer)
        × (store.new ≡ pushed_store (ported_in state) store.old chunk.now)
        × (out.new ≡ told 0 (0, 0)) }
{
    face_told::tell(out, 0, 0, 0);
    let outcome = frame_parser::push(ported_in(state), store, chunk);
    ported_told(state, outcome.state, outcome.answer)
}

// The stream's end for the ported framer.
pub fn ported_end(state: PortedState, store: &[u8], out: &mut [u32; 4]) -> PortedReply
    ensures { (result ≡ ported_told state (finished (ported_in state) store.now).state (finished (ported_in state) store.now).answer) × (out.new ≡ told 0 (0, 0)) }
{
    face_told::tell(out, 0, 0, 0);
    let outcome = frame_parser::end(ported_in(state), store);
    ported_told(state, outcome.state, outcome.answer)
}

// The message at the front of the ported framer's store, if it is whole; the first value is its length.
pub fn ported_take(
    state: PortedState,
    store: &mut [u8],
    output: &mut [u8],
    out: &mut [u32; 4],
) -> PortedReply
    ensures { (result ≡ ported_told state (taken (ported_in state) store.old output.old).state (taken (ported_in state) store.old output.old).answer)
        × (store.new ≡ taken_store (ported_in state) store.old output.old)
        × (output.new ≡ taken_output (ported_in state) store.old output.old)
        × (out.new ≡ told 0 (length_returned (taken (ported_in state) store.old output.old).answer, 0)) }
{
    let outcome = frame_parser::take(ported_in(state), store, output);
    face_told::tell(out, 0, frame_answers::parser_length(outcome.answer), 0);
    ported_told(state, outcome.state, outcome.answer)
}

// A fresh, empty state of the ported framer.
pub fn ported_reset(out: &mut [u32; 4]) -> PortedReply
    ensures { (result ≡ ported_reset) × (out.new ≡ told 0 (0, 0)) }
{
    face_told::tell(out, 0, 0, 0);
    let zeros = PortedState {
        used: 0,
        ended: 0,
        over: 0,
    };
    ported_told(
        zeros,
        frame_parser::reset(),
        frame_parser_rules::Answer::Accepted,
    )
}

// A chunk of the stream for the hunting framer.
pub fn hunter_push(
    state: HunterState,
    store: &mut [u8],
    chunk: &[u8],
    out: &mut [u32; 4],
) -> HunterReply
    ensures { (result ≡ hunter_told state (hunter_pushed (hunter_in state) store.old chunk.now).reply.state (hunter_pushed (hunter_in state) store.old chunk.now).reply.answer)
        × (store.new ≡ (hunter_pushed (hunter_in state) store.old chunk.now).store)
        × (out.new ≡ told 0 (0, 0)) }
{
    face_told::tell(out, 0, 0, 0);
    let reply = frame_hunter::push(hunter_in(state), store, chunk);
    hunter_told(state, reply.state, reply.answer)
}

// The stream's end for the hunting framer.
pub fn hunter_end(state: HunterState, store: &[u8], out: &mut [u32; 4]) -> HunterReply
    ensures { (result ≡ hunter_told state (hunter_finished (hunter_in state) store.now).reply.state (hunter_finished (hunter_in state) store.now).reply.answer) × (out.new ≡ told 0 (0, 0)) }
{
    face_told::tell(out, 0, 0, 0);
    let reply = frame_hunter::end(hunter_in(state), store);
    hunter_told(state, reply.state, reply.answer)
}

// The first frame in the hunting framer's store, if one is ready; the first value is its length.
pub fn hunter_take(
    state: HunterState,
    store: &mut [u8],
    output: &mut [u8],
    out: &mut [u32; 4],
) -> HunterReply
    ensures { (result ≡ hunter_told state (took_from (hunter_in state) store.old output.old).taken.state (took_from (hunter_in state) store.old output.old).taken.answer)
        × (store.new ≡ (took_from (hunter_in state) store.old output.old).store)
        × (output.new ≡ (took_from (hunter_in state) store.old output.old).output)
        × (out.new ≡ told 0 ((took_from (hunter_in state) store.old output.old).taken.length, 0)) }
{
    let taken = frame_hunter::take(hunter_in(state), store, output);
    face_told::tell(out, 0, taken.length, 0);
    hunter_told(state, taken.state, taken.answer)
}

// A fresh, empty state of the hunting framer.
pub fn hunter_reset(out: &mut [u32; 4]) -> HunterReply
    ensures { (result ≡ hunter_reset) × (out.new ≡ told 0 (0, 0)) }
{
    face_told::tell(out, 0, 0, 0);
    let zeros = HunterState {
        used: 0,
        dropped: 0,
        ended: 0,
    };
    hunter_told(
        zeros,
        frame_hunter::reset(),
        frame_hunter_rules::Answer::Fine,
    )
}
