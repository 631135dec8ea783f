// The unit's call: the refusals in order, then what a frame asks for, what becomes of the state, and the reply.
ghost use Rattle.std.specs.Prelude.{◌≡◌, length};
ghost use Rattle.octets.specs.Numbers.{done, judgement, looked_up};
ghost use Rattle.frame.specs.Frame.{judged, data_of};
ghost use Rattle.frame.specs.declared.End.TheVariants as ends;
ghost use Rattle.services.specs.State.{possible_at};
ghost use Rattle.unit.specs.Call.{stepped, reaction_at, number_before, unit_result_given, unit_out_given};

use frame::{Addresses, End, WITHOUT_LEN};
use octets::refusal::Refusal;
use octets::wire::FRAME_MOST;
use octets::{Part, Place, Step};
use services::{Reaction, UnitState};

// The place of an answer that the store was asked for: refused by 6 where it is not held.
fn place_of(held: Option<Part>) -> Place
    ensures { result ≡ looked_up held }
{
    held.ok_or(Refusal::NotHeld).into()
}

// The refusals between the store's and the frame's own, in order. `sent` is the place of the answer that is being sent.
fn check_before(state: UnitState, sent: Place, reply_len: usize) -> Result<(), Refusal>
    ensures { judgement result ≡ number_before done (possible_at sent state) reply_len }
{
    if !services::state::possible_at(state, sent) {
        return Err(Refusal::OutOfTurn);
    }
    if reply_len < FRAME_MOST {
        return Err(Refusal::BufferShort);
    }
    Ok(())
}

// What a good frame asks for, whose data this is: the start of communication is heard by its first byte, and closed
// nothing else is.
fn on_good(
    addresses: Addresses,
    state: UnitState,
    sent: Place,
    asked: Place,
    frame: &[u8],
    data: &[u8],
) -> Reaction
    requires frame_value { judged addresses ends.Unit frame.now ≡ 0 }
    requires data_value { «data».now ≡ data_of addresses ends.Unit frame.now }
    ensures { result ≡ reaction_at addresses sent asked state frame.now }
{
    let phase = state.phase;
    if frame[0] == WITHOUT_LEN {
        return Reaction::CommunicationStarted;
    }
    if phase.is_closed() {
        return Reaction::Ignored;
    }
    services::dispatch::on_data(state, sent, asked, data)
}

// One frame at the unit, with both addresses as given. Refused by 2 (equal addresses), the number of a broken store,
// 11, 4 and the frame's number, in this order; then nothing changes.
// Else the next state, and the reply at the front of `reply`. The store is checked once for both lookups.
pub fn step(
    addresses: Addresses,
    state: UnitState,
    store: &[u8],
    frame: &[u8],
    reply: &mut [u8],
) -> Result<Step<UnitState>, Refusal>
    ensures value { stepped state result ≡
        unit_result_given addresses store.now (length reply.old) state frame.now }
    ensures reply_after { reply.new ≡
        unit_out_given addresses store.now state frame.now reply.old }
{
    let phase = state.phase;
    addresses.differ()?;
    let located = frame::check::locate(addresses, frame, End::Unit);
    let place = Place::from(located);
    let start = place.start;
    let end = start + place.len;
    let data = &frame[start..end]; // no test: it lies there (`place-within`)
    let held = store::read::locate_both(
        store,
        services::state::name_sent(phase),
        services::transfer::name_asked(data),
    )?;
    let sent = place_of(held.first);
    let asked = place_of(held.second);
    check_before(state, sent, reply.len())?;
    located?;
    let reaction = on_good(addresses, state, sent, asked, frame, data);
    let len = crate::reply::write_reply(addresses, reaction, store, reply);
    let after = services::after::state_after(state, reaction);
    Ok(Step { state: after, len })
}
