// The tool's calls: begin, arrival and wait's end, with the refusals in order.
ghost use Rattle.std.specs.Prelude.{◌≡◌, true, ◌+◌, ◌≤◌, length};
ghost use Rattle.octets.specs.Numbers.{judgement};
ghost use Rattle.progress.specs.State.{held_most, is_transfer};
ghost use Rattle.arrival.specs.Meaning.{takes};
ghost use Rattle.tool.specs.Call.{stepped, request_number, begin_number, begun};
ghost use Rattle.tool.specs.Call.{event_number, event_result_given, event_out_given};
ghost use Rattle.tool.specs.Call.{begin_result_given, begin_out_given};
ghost use Rattle.tool.specs.Call.{arrival_result_given, arrival_room_given, arrival_out_given};
ghost use Rattle.tool.specs.Call.{wait_result_given, wait_out_given};

use arrival::Meaning;
use catalog::AnswerName;
use frame::Addresses;
use octets::refusal::Refusal;
use octets::wire::FRAME_MOST;
use octets::{Place, Step};
use progress::{Outcome, Request, ToolState};
use split::SubMessage;

fn check_request(request: Request, name: AnswerName) -> Result<(), Refusal>
    ensures { judgement result ≡ request_number request name }
{
    if request.is_transfer() {
        return catalog::check_name(name);
    }
    if name.trep != 0 {
        return Err(Refusal::NotInTable);
    }
    if name.day != 0 {
        return Err(Refusal::NotInTable);
    }
    Ok(())
}

fn check_begin(
    state: ToolState,
    request: Request,
    name: AnswerName,
    out_len: usize,
) -> Result<(), Refusal>
    ensures { judgement result ≡ begin_number state request name out_len }
{
    let outcome = state.outcome;
    check_request(request, name)?;
    if outcome.is_waiting() {
        return Err(Refusal::OutOfTurn);
    }
    if out_len < FRAME_MOST {
        return Err(Refusal::BufferShort);
    }
    Ok(())
}

// The state of a request that was just sent for the first time.
fn begun_state(request: Request, name: AnswerName) -> ToolState
    ensures { result ≡ begun request name }
{
    ToolState {
        request,
        outcome: Outcome::Waiting,
        name,
        sendings: 1,
        expected: SubMessage(1),
        held: 0,
    }
}

// Begins a request, with both addresses as given: its frame goes out and the tool waits. Refused by 2 (equal
// addresses), 12, 11 and 4, in this order.
pub fn begin(
    addresses: Addresses,
    state: ToolState,
    request: Request,
    name: AnswerName,
    out: &mut [u8],
) -> Result<Step<ToolState>, Refusal>
    ensures value { stepped state result ≡ begin_result_given addresses state request name (length out.old) }
    ensures out_after { out.new ≡ begin_out_given addresses state request name out.old }
{
    addresses.differ()?;
    check_begin(state, request, name, out.len())?;
    let len = requests::sent::write_request(addresses, request, name, SubMessage(1), out).unwrap_or(
        0,
    );
    Ok(Step {
        state: begun_state(request, name),
        len,
    })
}

fn check_event(state: ToolState, room_len: usize, out_len: usize) -> Result<(), Refusal>
    ensures { judgement result ≡ event_number state room_len out_len }
{
    let outcome = state.outcome;
    if !outcome.is_waiting() {
        return Err(Refusal::OutOfTurn);
    }
    if !progress::state::possible(state, room_len) {
        return Err(Refusal::OutOfTurn);
    }
    if out_len < FRAME_MOST {
        return Err(Refusal::BufferShort);
    }
    Ok(())
}

// An event that means this, with both addresses as given: refused by 2 (equal addresses), 11 and 4, in this order, or
// the next state and the frame sent. Where bytes are taken the request is a transfer, and their sum with those held is
// within bounds.
fn event_step(
    addresses: Addresses,
    state: ToolState,
    meaning: Meaning,
    new: usize,
    room_len: usize,
    out: &mut [u8],
) -> Result<Step<ToolState>, Refusal>
    requires request_value { takes meaning ≡ true → is_transfer state.request ≡ true }
    requires bound { takes meaning ≡ true → state.held + new ≤ held_most }
    ensures value { stepped state result ≡ event_result_given addresses state meaning new room_len (length out.old) }
    ensures out_after { out.new ≡ event_out_given addresses state meaning room_len out.old }
{
    addresses.differ()?; // no event, so no sending is counted
    check_event(state, room_len, out.len())?;
    let len = crate::after::write_sent(addresses, state, meaning, out);
    Ok(Step {
        state: crate::after::state_after(state, meaning, new),
        len,
    })
}

// A string arrives, good frame or not, at a tool with a room of this length: the step without the bytes taken.
// Refused by 2 (equal addresses), 11 and 4, in this order.
pub fn arrival_step(
    addresses: Addresses,
    state: ToolState,
    frame: &[u8],
    room_len: usize,
    out: &mut [u8],
) -> Result<Step<ToolState>, Refusal>
    ensures value { stepped state result ≡
        arrival_result_given addresses state frame.now room_len (length out.old) }
    ensures out_after { out.new ≡
        arrival_out_given addresses state frame.now room_len out.old }
{
    let arrival = arrival::event::arrival_of(addresses, state, frame, room_len);
    let meaning = arrival.meaning;
    event_step(addresses, state, meaning, arrival.new, room_len, out)
}

// The same with the room itself, which takes the new bytes.
pub fn arrived(
    addresses: Addresses,
    state: ToolState,
    frame: &[u8],
    room: &mut [u8],
    out: &mut [u8],
) -> Result<Step<ToolState>, Refusal>
    ensures value { stepped state result ≡
        arrival_result_given addresses state frame.now
        (length room.old) (length out.old) }
    ensures room_after { room.new ≡
        arrival_room_given addresses state frame.now (length out.old) room.old }
    ensures out_after { out.new ≡
        arrival_out_given addresses state frame.now (length room.old) out.old }
{
    let arrival = arrival::event::arrival_of(addresses, state, frame, room.len());
    let meaning = arrival.meaning;
    let received = arrival.received;
    let place = Place::from(arrival.data);
    let start = place.start;
    let end = start + place.len;
    let data = &frame[start..end]; // no test: it lies there (`place-within`)
    let step = event_step(addresses, state, meaning, arrival.new, room.len(), out)?;
    crate::room::take_in(state, meaning, received, data, room);
    Ok(step)
}

// A wait ends without a frame, at a tool with a room of this length. Refused by 2 (equal addresses), 11 and 4, in this
// order.
pub fn wait_step(
    addresses: Addresses,
    state: ToolState,
    room_len: usize,
    out: &mut [u8],
) -> Result<Step<ToolState>, Refusal>
    ensures value { stepped state result ≡ wait_result_given addresses state room_len (length out.old) }
    ensures out_after { out.new ≡ wait_out_given addresses state room_len out.old }
{
    event_step(addresses, state, Meaning::FailedWait, 0, room_len, out)
}

// The same with the room itself, which is only looked at.
pub fn wait_ended(
    addresses: Addresses,
    state: ToolState,
    room: &[u8],
    out: &mut [u8],
) -> Result<Step<ToolState>, Refusal>
    ensures value { stepped state result ≡
        wait_result_given addresses state (length room.now) (length out.old) }
    ensures out_after { out.new ≡
        wait_out_given addresses state (length room.now) out.old }
{
    wait_step(addresses, state, room.len(), out)
}
