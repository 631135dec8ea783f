// The tool on its packed state.
ghost use Rattle.std.specs.Prelude.{◌≡◌, length};
ghost use Rattle.octets.specs.Numbers.{judgement, written};
ghost use Rattle.frame.specs.Frame.{lab};
ghost use Rattle.host.specs.Calls.{tool_fresh_number, tool_fresh_state, tool_handed, tool_kept};
ghost use Rattle.host.specs.Calls.{tool_begin, tool_begin_out, tool_arrival, tool_arrival_room, tool_arrival_out};
ghost use Rattle.host.specs.Calls.{tool_wait, tool_wait_out};
ghost use Rattle.host.specs.Ends.{given};

use catalog::AnswerName;
use frame::{Addresses, LAB};
use octets::Written;
use octets::refusal::Refusal;
use progress::Request;

// The state of a tool that has begun nothing. 4 for too few bytes.
fn fresh(state: &mut [u8]) -> Result<(), Refusal>
    ensures value { judgement result ≡ tool_fresh_number (length state.old) }
    ensures state_after { state.new ≡ tool_fresh_state state.old }
{
    if state.len() < states::pack_tool::SIZE {
        return Err(Refusal::BufferShort);
    }
    octets::buffer::copy_in(state, &states::pack_tool::pack(progress::state::fresh()));
    Ok(())
}

#[unsafe(no_mangle)]
pub extern "C" fn tacho_tool_fresh(state: &mut [u8]) -> u8
    ensures value { result ≡ tool_fresh_number (length state.old) }
    ensures state_after { state.new ≡ tool_fresh_state state.old }
{
    octets::refusal::number_of(fresh(state))
}

// The calls on the state that the bytes are. They become the next state where nothing is refused, and else stay.
fn begin(
    addresses: Addresses,
    state: &mut [u8],
    request: u8,
    name: AnswerName,
    out: &mut [u8],
) -> Result<usize, Refusal>
    ensures value { written result ≡
        tool_handed (tool_begin addresses state.old request name (length out.old)) }
    ensures state_after { state.new ≡
        tool_kept (tool_begin addresses state.old request name (length out.old)) state.old }
    ensures out_after { out.new ≡ tool_begin_out addresses state.old request name out.old }
{
    addresses.differ()?;
    let asked = Request::try_from(request)?;
    let was = states::pack_tool::unpack(state);
    let step = tool::call::begin(addresses, was, asked, name, out)?;
    octets::buffer::copy_in(state, &states::pack_tool::pack(step.state));
    Ok(step.len)
}

fn arrived(
    addresses: Addresses,
    state: &mut [u8],
    frame: &[u8],
    room: &mut [u8],
    out: &mut [u8],
) -> Result<usize, Refusal>
    ensures value { written result ≡
        tool_handed
        (tool_arrival addresses state.old frame.now
        (length room.old) (length out.old)) }
    ensures state_after { state.new ≡
        tool_kept
        (tool_arrival addresses state.old frame.now
        (length room.old) (length out.old))
        state.old }
    ensures room_after { room.new ≡
        tool_arrival_room addresses state.old frame.now
        (length out.old) room.old }
    ensures out_after { out.new ≡
        tool_arrival_out addresses state.old frame.now
        (length room.old) out.old }
{
    let was = states::pack_tool::unpack(state);
    let step = tool::call::arrived(addresses, was, frame, room, out)?;
    octets::buffer::copy_in(state, &states::pack_tool::pack(step.state));
    Ok(step.len)
}

fn wait_ended(
    addresses: Addresses,
    state: &mut [u8],
    room: &[u8],
    out: &mut [u8],
) -> Result<usize, Refusal>
    ensures value { written result ≡
        tool_handed
        (tool_wait addresses state.old (length room.now) (length out.old)) }
    ensures state_after { state.new ≡
        tool_kept
        (tool_wait addresses state.old (length room.now) (length out.old))
        state.old }
    ensures out_after { out.new ≡
        tool_wait_out addresses state.old (length room.now) out.old }
{
    let was = states::pack_tool::unpack(state);
    let step = tool::call::wait_ended(addresses, was, room, out)?;
    octets::buffer::copy_in(state, &states::pack_tool::pack(step.state));
    Ok(step.len)
}

// Begins a request: 0 start, 1 session, 2 upload, 3 exit, 4 stop, 5 transfer. Both addresses are as given. Refused by 2
// (equal addresses), 12, 11 and 4, in this order.
#[unsafe(no_mangle)]
pub extern "C" fn tacho_tool_begin_at(
    unit: u8,
    tool: u8,
    state: &mut [u8],
    request: u8,
    trep: u8,
    day: u32,
    out: &mut [u8],
) -> Written
    ensures value { result ≡
        tool_handed
        (tool_begin (given unit tool) state.old request (record { trep = trep; day = day })
        (length out.old)) }
    ensures state_after { state.new ≡
        tool_kept
        (tool_begin (given unit tool) state.old request (record { trep = trep; day = day })
        (length out.old))
        state.old }
    ensures out_after { out.new ≡
        tool_begin_out (given unit tool) state.old request (record { trep = trep; day = day })
        out.old }
{
    let name = AnswerName { trep, day };
    begin(Addresses { unit, tool }, state, request, name, out).into()
}

// The same at the lab's addresses.
#[unsafe(no_mangle)]
pub extern "C" fn tacho_tool_begin(
    state: &mut [u8],
    request: u8,
    trep: u8,
    day: u32,
    out: &mut [u8],
) -> Written
    ensures value { result ≡
        tool_handed
        (tool_begin lab state.old request (record { trep = trep; day = day })
        (length out.old)) }
    ensures state_after { state.new ≡
        tool_kept
        (tool_begin lab state.old request (record { trep = trep; day = day })
        (length out.old))
        state.old }
    ensures out_after { out.new ≡
        tool_begin_out lab state.old request (record { trep = trep; day = day })
        out.old }
{
    begin(LAB, state, request, AnswerName { trep, day }, out).into()
}

// A frame arrived, good or not. Refused by 2 (equal addresses), 11 and 4, in this order.
#[unsafe(no_mangle)]
pub extern "C" fn tacho_tool_arrived_at(
    unit: u8,
    tool: u8,
    state: &mut [u8],
    frame: &[u8],
    room: &mut [u8],
    out: &mut [u8],
) -> Written
    ensures value { result ≡
        tool_handed
        (tool_arrival (given unit tool) state.old frame.now
        (length room.old) (length out.old)) }
    ensures state_after { state.new ≡
        tool_kept
        (tool_arrival (given unit tool) state.old frame.now
        (length room.old) (length out.old))
        state.old }
    ensures room_after { room.new ≡
        tool_arrival_room (given unit tool) state.old frame.now
        (length out.old) room.old }
    ensures out_after { out.new ≡
        tool_arrival_out (given unit tool) state.old frame.now
        (length room.old) out.old }
{
    arrived(Addresses { unit, tool }, state, frame, room, out).into()
}

// The same at the lab's addresses.
#[unsafe(no_mangle)]
pub extern "C" fn tacho_tool_arrived(
    state: &mut [u8],
    frame: &[u8],
    room: &mut [u8],
    out: &mut [u8],
) -> Written
    ensures value { result ≡
        tool_handed
        (tool_arrival lab state.old frame.now
        (length room.old) (length out.old)) }
    ensures state_after { state.new ≡
        tool_kept
        (tool_arrival lab state.old frame.now
        (length room.old) (length out.old))
        state.old }
    ensures room_after { room.new ≡
        tool_arrival_room lab state.old frame.now
        (length out.old) room.old }
    ensures out_after { out.new ≡
        tool_arrival_out lab state.old frame.now
        (length room.old) out.old }
{
    arrived(LAB, state, frame, room, out).into()
}

// The wait for a frame ended; the room is only looked at. Refused by 2 (equal addresses), 11 and 4, in this order.
#[unsafe(no_mangle)]
pub extern "C" fn tacho_tool_wait_ended_at(
    unit: u8,
    tool: u8,
    state: &mut [u8],
    room: &[u8],
    out: &mut [u8],
) -> Written
    ensures value { result ≡
        tool_handed
        (tool_wait (given unit tool) state.old (length room.now) (length out.old)) }
    ensures state_after { state.new ≡
        tool_kept
        (tool_wait (given unit tool) state.old (length room.now) (length out.old))
        state.old }
    ensures out_after { out.new ≡
        tool_wait_out (given unit tool) state.old (length room.now) out.old }
{
    wait_ended(Addresses { unit, tool }, state, room, out).into()
}

// The same at the lab's addresses.
#[unsafe(no_mangle)]
pub extern "C" fn tacho_tool_wait_ended(state: &mut [u8], room: &[u8], out: &mut [u8]) -> Written
    ensures value { result ≡
        tool_handed
        (tool_wait lab state.old (length room.now) (length out.old)) }
    ensures state_after { state.new ≡
        tool_kept
        (tool_wait lab state.old (length room.now) (length out.old))
        state.old }
    ensures out_after { out.new ≡
        tool_wait_out lab state.old (length room.now) out.old }
{
    wait_ended(LAB, state, room, out).into()
}
