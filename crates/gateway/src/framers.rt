// The two framers. A state and a store of 16,384 bytes are lent to each call; a state of zeros is fresh.
ghost use Rattle.std.specs.Prelude.{◌≡◌};
ghost use Rattle.frame_parser_rules.specs.Framer.{number_of_parser, length_returned, pushed, pushed_store, finished, taken, taken_store, taken_output};
ghost use Rattle.frame_hunter_rules.specs.Bytes.{number_of_hunter, pushed as hunter_pushed, finished as hunter_finished, took_from};
ghost use Rattle.face_told.specs.Told.{told};
ghost use Rattle.face_framers.specs.States.{ported_in, ported_out, ported_fresh, hunter_in, hunter_out, hunter_fresh};

use face_framers::{HunterState, PortedState};

// A chunk of the stream for the ported framer.
pub fn gateway_ported_push(
    state: &mut PortedState,
    store: &mut [u8],
    chunk: &[u8],
    out: &mut [u32; 4],
) -> u32
    ensures { (result ≡ number_of_parser (pushed (ported_in state.old) store.old chunk.now).answer)
        × (state.new ≡ ported_out state.old (pushed (ported_in state.old) store.old chunk.now).state)
        × (store.new ≡ pushed_store (ported_in state.old) store.old chunk.now)
        × (out.new ≡ told 0 (0, 0)) }
{
    let reply = face_framers::ported_push(*state, store, chunk, out);
    *state = reply.state;
    reply.number
}

// The stream's end for the ported framer.
pub fn gateway_ported_end(state: &mut PortedState, store: &[u8], out: &mut [u32; 4]) -> u32
    ensures { (result ≡ number_of_parser (finished (ported_in state.old) store.now).answer)
        × (state.new ≡ ported_out state.old (finished (ported_in state.old) store.now).state)
        × (out.new ≡ told 0 (0, 0)) }
{
    let reply = face_framers::ported_end(*state, store, out);
    *state = reply.state;
    reply.number
}

// The message at the front of the ported framer's store, if it is whole; the first value is its length, 0 if none is ready.
pub fn gateway_ported_take(
    state: &mut PortedState,
    store: &mut [u8],
    output: &mut [u8],
    out: &mut [u32; 4],
) -> u32
    ensures { (result ≡ number_of_parser (taken (ported_in state.old) store.old output.old).answer)
        × (state.new ≡ ported_out state.old (taken (ported_in state.old) store.old output.old).state)
        × (store.new ≡ taken_store (ported_in state.old) store.old output.old)
        × (output.new ≡ taken_output (ported_in state.old) store.old output.old)
        × (out.new ≡ told 0 (length_returned (taken (ported_in state.old) store.old output.old).answer, 0)) }
{
    let reply = face_framers::ported_take(*state, store, output, out);
    *state = reply.state;
    reply.number
}

// Makes the ported framer's state fresh and empty, whatever it was.
pub fn gateway_ported_reset(state: &mut PortedState, out: &mut [u32; 4]) -> u32
    ensures { (result ≡ 0) × (state.new ≡ ported_fresh) × (out.new ≡ told 0 (0, 0)) }
{
    let reply = face_framers::ported_reset(out);
    *state = reply.state;
    reply.number
}

// A chunk of the stream for the hunting framer.
pub fn gateway_hunter_push(
    state: &mut HunterState,
    store: &mut [u8],
    chunk: &[u8],
    out: &mut [u32; 4],
) -> u32
    ensures { (result ≡ number_of_hunter (hunter_pushed (hunter_in state.old) store.old chunk.now).reply.answer)
        × (state.new ≡ hunter_out state.old (hunter_pushed (hunter_in state.old) store.old chunk.now).reply.state)
        × (store.new ≡ (hunter_pushed (hunter_in state.old) store.old chunk.now).store)
        × (out.new ≡ told 0 (0, 0)) }
{
    let reply = face_framers::hunter_push(*state, store, chunk, out);
    *state = reply.state;
    reply.number
}

// The stream's end for the hunting framer.
pub fn gateway_hunter_end(state: &mut HunterState, store: &[u8], out: &mut [u32; 4]) -> u32
    ensures { (result ≡ number_of_hunter (hunter_finished (hunter_in state.old) store.now).reply.answer)
        × (state.new ≡ hunter_out state.old (hunter_finished (hunter_in state.old) store.now).reply.state)
        × (out.new ≡ told 0 (0, 0)) }
{
    let reply = face_framers::hunter_end(*state, store, out);
    *state = reply.state;
    reply.number
}

// The first frame in the hunting framer's store, if one is ready; the first value is its length, 0 if none is.
pub fn gateway_hunter_take(
    state: &mut HunterState,
    store: &mut [u8],
    output: &mut [u8],
    out: &mut [u32; 4],
) -> u32
    ensures { (result ≡ number_of_hunter (took_from (hunter_in state.old) store.old output.old).taken.answer)
        × (state.new ≡ hunter_out state.old (took_from (hunter_in state.old) store.old output.old).taken.state)
        × (store.new ≡ (took_from (hunter_in state.old) store.old output.old).store)
        × (output.new ≡ (took_from (hunter_in state.old) store.old output.old).output)
        × (out.new ≡ told 0 ((took_from (hunter_in state.old) store.old output.old).taken.length, 0)) }
{
    let reply = face_framers::hunter_take(*state, store, output, out);
    *state = reply.state;
    reply.number
}

// Makes the hunting framer's state fresh and empty, whatever it was.
pub fn gateway_hunter_reset(state: &mut HunterState, out: &mut [u32; 4]) -> u32
    ensures { (result ≡ 0) × (state.new ≡ hunter_fresh) × (out.new ≡ told 0 (0, 0)) }
{
    let reply = face_framers::hunter_reset(out);
    *state = reply.state;
    reply.number
}
