// What a frame's data adds to the bytes held in the room, and whether it fits.
ghost use Rattle.std.specs.Prelude.{◌≡◌, ◌≤◌, length};
ghost use Rattle.arrival.specs.Meaning.{header, new_bytes, fits};

use progress::ToolState;
use progress::state::HELD_MOST;
use split::Received;

// 76 and TREP stand before the data of sub message 1 alone.
pub fn header_length(state: ToolState) -> usize
    ensures { (result ≡ length (header state)) × (result ≤ 2) }
{
    if state.expected.0 == 1 { 2 } else { 0 }
}

// How many bytes a frame's data adds to the held ones where it is taken.
pub(crate) fn new_length(state: ToolState, received: Received, data: &[u8]) -> usize
    ensures { result ≡ length (new_bytes state received «data».now) }
{
    header_length(state) + split::join::carried(data, received).len()
}

// Whether so many new bytes pass neither the room nor 60,000.
pub(crate) fn fits_in(state: ToolState, new: usize, room_len: usize) -> bool
    ensures { result ≡ fits room_len state new }
{
    let held = state.held as usize;
    if room_len < held {
        return false;
    }
    if room_len - held < new {
        return false;
    }
    held + new <= HELD_MOST
}
