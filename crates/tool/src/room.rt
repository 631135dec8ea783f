// The lent room, which takes the new bytes.
ghost use Rattle.std.specs.Prelude.{◌≡◌, true, ◌+◌, ◌≤◌, length};
ghost use Rattle.octets.specs.Buffer.{put};
ghost use Rattle.arrival.specs.Meaning.{header, new_bytes, takes};
ghost use Rattle.tool.specs.After.{room_after};

use arrival::Meaning;
use octets::wire::ANSWER;
use progress::ToolState;
use split::Received;

// 76 and TREP right behind the held bytes, where sub message 1 is expected: they stand before its data alone.
fn keep_header(state: ToolState, room: &mut [u8])
    requires { state.expected.0 ≡ 1 → state.held + 2 ≤ length room.old }
    ensures { room.new ≡ put state.held (header state) room.old }
{
    let held = state.held as usize;
    if state.expected.0 != 1 {
        return;
    }
    room[held] = ANSWER;
    room[held + 1] = state.name.trep;
}

// Takes the new bytes of a frame's data into the room where its meaning says so, right behind the held ones. The tail
// behind the header is lent on to the copy, which knows only that part.
pub(crate) fn take_in(
    state: ToolState,
    meaning: Meaning,
    received: Received,
    data: &[u8],
    room: &mut [u8],
)
    requires { takes meaning ≡ true →
        state.held + length (new_bytes state received «data».now) ≤ length room.old }
    ensures { room.new ≡
        room_after state meaning (new_bytes state received «data».now) room.old }
{
    let held = state.held as usize;
    if !meaning.takes() {
        return;
    }
    keep_header(state, room);
    let behind = held + arrival::room::header_length(state);
    let carried = split::join::carried(data, received);
    octets::buffer::copy_in(&mut room[behind..], carried);
}
