// The unit on its packed state.
ghost use Rattle.std.specs.Prelude.{◌≡◌, length};
ghost use Rattle.octets.specs.Numbers.{judgement, written};
ghost use Rattle.frame.specs.Frame.{lab};
ghost use Rattle.host.specs.Calls.{unit_fresh_number, unit_fresh_state, unit_handed, unit_kept, unit_step};
ghost use Rattle.host.specs.Calls.{unit_step_reply};
ghost use Rattle.host.specs.Ends.{given};

use catalog::kind::Kind;
use frame::{Addresses, LAB};
use octets::Written;
use octets::refusal::Refusal;

// The state of a unit of this kind that was just switched on. 11 for a kind out of range, 4 for too few bytes.
fn fresh(kind: u8, state: &mut [u8]) -> Result<(), Refusal>
    ensures value { judgement result ≡ unit_fresh_number kind (length state.old) }
    ensures state_after { state.new ≡ unit_fresh_state kind state.old }
{
    Kind::try_from(kind)?;
    if state.len() < states::pack_unit::SIZE {
        return Err(Refusal::BufferShort);
    }
    octets::buffer::copy_in(
        state,
        &states::pack_unit::pack(services::state::fresh(kind)),
    );
    Ok(())
}

#[unsafe(no_mangle)]
pub extern "C" fn tacho_unit_fresh(kind: u8, state: &mut [u8]) -> u8
    ensures value { result ≡ unit_fresh_number kind (length state.old) }
    ensures state_after { state.new ≡ unit_fresh_state kind state.old }
{
    octets::refusal::number_of(fresh(kind, state))
}

// The step on the state that the bytes are. They become the next state where nothing is refused, and else stay.
fn step(
    addresses: Addresses,
    state: &mut [u8],
    store: &[u8],
    frame: &[u8],
    reply: &mut [u8],
) -> Result<usize, Refusal>
    ensures value { written result
        ≡ unit_handed
        (unit_step addresses state.old store.now
        (length reply.old) frame.now) }
    ensures state_after { state.new
        ≡ unit_kept
        (unit_step addresses state.old store.now
        (length reply.old) frame.now)
        state.old }
    ensures reply_after { reply.new
        ≡ unit_step_reply addresses state.old store.now
        frame.now reply.old }
{
    let was = states::pack_unit::unpack(state);
    let step = unit::call::step(addresses, was, store, frame, reply)?;
    octets::buffer::copy_in(state, &states::pack_unit::pack(step.state));
    Ok(step.len)
}

// The unit hears a frame, with both addresses as given. Refused by 2 (equal addresses), the number of a broken store,
// 11, 4 and the frame's numbers, in this order; then state and reply stay.
#[unsafe(no_mangle)]
pub extern "C" fn tacho_unit_step_at(
    unit: u8,
    tool: u8,
    state: &mut [u8],
    store: &[u8],
    frame: &[u8],
    reply: &mut [u8],
) -> Written
    ensures value { result
        ≡ unit_handed
        (unit_step (given unit tool) state.old store.now
        (length reply.old) frame.now) }
    ensures state_after { state.new
        ≡ unit_kept
        (unit_step (given unit tool) state.old store.now
        (length reply.old) frame.now)
        state.old }
    ensures reply_after { reply.new
        ≡ unit_step_reply (given unit tool) state.old store.now
        frame.now reply.old }
{
    step(Addresses { unit, tool }, state, store, frame, reply).into()
}

// The same at the lab's addresses.
#[unsafe(no_mangle)]
pub extern "C" fn tacho_unit_step(
    state: &mut [u8],
    store: &[u8],
    frame: &[u8],
    reply: &mut [u8],
) -> Written
    ensures value { result
        ≡ unit_handed
        (unit_step lab state.old store.now (length reply.old) frame.now) }
    ensures state_after { state.new
        ≡ unit_kept
        (unit_step lab state.old store.now (length reply.old) frame.now)
        state.old }
    ensures reply_after { reply.new
        ≡ unit_step_reply lab state.old store.now frame.now reply.old }
{
    step(LAB, state, store, frame, reply).into()
}
