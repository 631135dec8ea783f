// The tool on its packed state, for C.
ghost use Rattle.std.specs.Prelude.{◌≡◌, length};
ghost use Rattle.frame.specs.Frame.{lab};
ghost use Rattle.host.specs.Calls.{tool_fresh_number, tool_fresh_state, tool_handed, tool_kept};
ghost use Rattle.host.specs.Calls.{tool_begin, tool_begin_out, tool_arrival, tool_arrival_room, tool_arrival_out};
ghost use Rattle.host.specs.Calls.{tool_wait, tool_wait_out};
ghost use Rattle.host.specs.Ends.{given};

use octets::Written;

#[unsafe(no_mangle)]
pub extern "C" fn tacho_tool_fresh(state: &mut [u8]) -> u8
    ensures value { result ≡ tool_fresh_number (length state.old) }
    ensures state_after { state.new ≡ tool_fresh_state state.old }
{
    host::tool_calls::tacho_tool_fresh(state)
}

#[unsafe(no_mangle)]
pub extern "C" fn tacho_tool_begin_at(
    unit: u8,
    tool: u8,
    state: &mut [u8],
    request: u8,
    trep: u8,
    day: u32,
    out: &mut [u8],
) -> Written
    ensures value { result ≡
        tool_handed
        (tool_begin (given unit tool) state.old request (record { trep = trep; day = day })
        (length out.old)) }
    ensures state_after { state.new ≡
        tool_kept
        (tool_begin (given unit tool) state.old request (record { trep = trep; day = day })
        (length out.old))
        state.old }
    ensures out_after { out.new ≡
        tool_begin_out (given unit tool) state.old request (record { trep = trep; day = day })
        out.old }
{
    host::tool_calls::tacho_tool_begin_at(unit, tool, state, request, trep, day, out)
}

#[unsafe(no_mangle)]
pub extern "C" fn tacho_tool_begin(
    state: &mut [u8],
    request: u8,
    trep: u8,
    day: u32,
    out: &mut [u8],
) -> Written
    ensures value { result ≡
        tool_handed
        (tool_begin lab state.old request (record { trep = trep; day = day })
        (length out.old)) }
    ensures state_after { state.new ≡
        tool_kept
        (tool_begin lab state.old request (record { trep = trep; day = day })
        (length out.old))
        state.old }
    ensures out_after { out.new ≡
        tool_begin_out lab state.old request (record { trep = trep; day = day })
        out.old }
{
    host::tool_calls::tacho_tool_begin(state, request, trep, day, out)
}

#[unsafe(no_mangle)]
pub extern "C" fn tacho_tool_arrived_at(
    unit: u8,
    tool: u8,
    state: &mut [u8],
    frame: &[u8],
    room: &mut [u8],
    out: &mut [u8],
) -> Written
    ensures value { result ≡
        tool_handed
        (tool_arrival (given unit tool) state.old frame.now
        (length room.old) (length out.old)) }
    ensures state_after { state.new ≡
        tool_kept
        (tool_arrival (given unit tool) state.old frame.now
        (length room.old) (length out.old))
        state.old }
    ensures room_after { room.new ≡
        tool_arrival_room (given unit tool) state.old frame.now
        (length out.old) room.old }
    ensures out_after { out.new ≡
        tool_arrival_out (given unit tool) state.old frame.now
        (length room.old) out.old }
{
    host::tool_calls::tacho_tool_arrived_at(unit, tool, state, frame, room, out)
}

#[unsafe(no_mangle)]
pub extern "C" fn tacho_tool_arrived(
    state: &mut [u8],
    frame: &[u8],
    room: &mut [u8],
    out: &mut [u8],
) -> Written
    ensures value { result ≡
        tool_handed
        (tool_arrival lab state.old frame.now
        (length room.old) (length out.old)) }
    ensures state_after { state.new ≡
        tool_kept
        (tool_arrival lab state.old frame.now
        (length room.old) (length out.old))
        state.old }
    ensures room_after { room.new ≡
        tool_arrival_room lab state.old frame.now
        (length out.old) room.old }
    ensures out_after { out.new ≡
        tool_arrival_out lab state.old frame.now
        (length room.old) out.old }
{
    host::tool_calls::tacho_tool_arrived(state, frame, room, out)
}

#[unsafe(no_mangle)]
pub extern "C" fn tacho_tool_wait_ended_at(
    unit: u8,
    tool: u8,
    state: &mut [u8],
    room: &[u8],
    out: &mut [u8],
) -> Written
    ensures value { result ≡
        tool_handed
        (tool_wait (given unit tool) state.old (length room.now) (length out.old)) }
    ensures state_after { state.new ≡
        tool_kept
        (tool_wait (given unit tool) state.old (length room.now) (length out.old))
        state.old }
    ensures out_after { out.new ≡
        tool_wait_out (given unit tool) state.old (length room.now) out.old }
{
    host::tool_calls::tacho_tool_wait_ended_at(unit, tool, state, room, out)
}

#[unsafe(no_mangle)]
pub extern "C" fn tacho_tool_wait_ended(state: &mut [u8], room: &[u8], out: &mut [u8]) -> Written
    ensures value { result ≡
        tool_handed
        (tool_wait lab state.old (length room.now) (length out.old)) }
    ensures state_after { state.new ≡
        tool_kept
        (tool_wait lab state.old (length room.now) (length out.old))
        state.old }
    ensures out_after { out.new ≡
        tool_wait_out lab state.old (length room.now) out.old }
{
    host::tool_calls::tacho_tool_wait_ended(state, room, out)
}
