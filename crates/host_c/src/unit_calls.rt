// The unit on its packed state, for C.
ghost use Rattle.std.specs.Prelude.{◌≡◌, length};
ghost use Rattle.frame.specs.Frame.{lab};
ghost use Rattle.host.specs.Calls.{unit_fresh_number, unit_fresh_state, unit_handed, unit_kept, unit_step};
ghost use Rattle.host.specs.Calls.{unit_step_reply};
ghost use Rattle.host.specs.Ends.{given};

use octets::Written;

#[unsafe(no_mangle)]
pub extern "C" fn tacho_unit_fresh(kind: u8, state: &mut [u8]) -> u8
    ensures value { result ≡ unit_fresh_number kind (length state.old) }
    ensures state_after { state.new ≡ unit_fresh_state kind state.old }
{
    host::unit_calls::tacho_unit_fresh(kind, state)
}

#[unsafe(no_mangle)]
pub extern "C" fn tacho_unit_step_at(
    unit: u8,
    tool: u8,
    state: &mut [u8],
    store: &[u8],
    frame: &[u8],
    reply: &mut [u8],
) -> Written
    ensures value { result
        ≡ unit_handed
        (unit_step (given unit tool) state.old store.now
        (length reply.old) frame.now) }
    ensures state_after { state.new
        ≡ unit_kept
        (unit_step (given unit tool) state.old store.now
        (length reply.old) frame.now)
        state.old }
    ensures reply_after { reply.new
        ≡ unit_step_reply (given unit tool) state.old store.now
        frame.now reply.old }
{
    host::unit_calls::tacho_unit_step_at(unit, tool, state, store, frame, reply)
}

#[unsafe(no_mangle)]
pub extern "C" fn tacho_unit_step(
    state: &mut [u8],
    store: &[u8],
    frame: &[u8],
    reply: &mut [u8],
) -> Written
    ensures value { result
        ≡ unit_handed
        (unit_step lab state.old store.now (length reply.old) frame.now) }
    ensures state_after { state.new
        ≡ unit_kept
        (unit_step lab state.old store.now (length reply.old) frame.now)
        state.old }
    ensures reply_after { reply.new
        ≡ unit_step_reply lab state.old store.now frame.now reply.old }
{
    host::unit_calls::tacho_unit_step(state, store, frame, reply)
}
