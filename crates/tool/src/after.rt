// What follows from an event: the next state, and the frame that goes out.
ghost use Rattle.std.specs.Prelude.{◌≡◌, true, ◌+◌, ◌≤◌, ◌<◌, length};
ghost use Rattle.octets.specs.Buffer.{front};
ghost use Rattle.frame.specs.Frame.{frame_most};
ghost use Rattle.progress.specs.State.{held_most};
ghost use Rattle.arrival.specs.Meaning.{takes};
ghost use Rattle.tool.specs.After.{state_after, sent_after};

use arrival::Meaning;
use frame::Addresses;
use progress::{Outcome, ToolState};
use split::SubMessage;

// So many bytes are held with the new ones.
fn grown(held: u32, new: usize) -> u32
    requires { held + new ≤ held_most }
    ensures { result ≡ held + new }
{
    held + (new as u32)
}

// The next state; where bytes are taken, their sum with those held and the next number fit.
pub(crate) fn state_after(state: ToolState, meaning: Meaning, new: usize) -> ToolState
    requires bound { takes meaning ≡ true → state.held + new ≤ held_most }
    requires expected_bound { takes meaning ≡ true → state.expected.0 < 65535 }
    ensures { result ≡ state_after state meaning new }
{
    let held = state.held;
    match meaning {
        Meaning::Ignored => state,
        Meaning::FailedWait => progress::next::after_failed_wait(state),
        Meaning::Confirmed => progress::next::end(state, Outcome::Done, held),
        Meaning::WholeAnswer => progress::next::end(state, Outcome::Done, grown(held, new)),
        Meaning::SubMessageTaken => progress::next::wait(
            state,
            1,
            SubMessage(state.expected.0 + 1),
            grown(held, new),
        ),
        Meaning::LastTaken => progress::next::end(state, Outcome::Done, grown(held, new)),
        Meaning::NoRoomForAnswer => progress::next::end(state, Outcome::NoRoom, held),
        Meaning::NoRoomForSubMessage => progress::next::end(state, Outcome::NoRoom, held),
        Meaning::RefusedBy(code) => progress::next::end(state, Outcome::Refused(code), held),
    }
}

// Writes the frame that goes out at the front of `out` and answers its length, 0 for none.
pub(crate) fn write_sent(
    addresses: Addresses,
    state: ToolState,
    meaning: Meaning,
    out: &mut [u8],
) -> usize
    requires expected_bound { takes meaning ≡ true → state.expected.0 < 65535 }
    requires frame_most_in_bounds { frame_most ≤ length out.old }
    ensures value { result ≡ length (sent_after addresses state meaning) }
    ensures out_after { out.new ≡ front (sent_after addresses state meaning) out.old }
{
    let request = state.request;
    let name = state.name;
    let expected = state.expected;
    match meaning {
        Meaning::Ignored => 0,
        Meaning::FailedWait => {
            if 3 <= state.sendings {
                0
            } else {
                requests::sent::write_request(addresses, request, name, expected, out).unwrap_or(0)
            }
        }
        Meaning::Confirmed => 0,
        Meaning::WholeAnswer => 0,
        Meaning::SubMessageTaken => {
            let next = SubMessage(expected.0 + 1);
            requests::sent::write_request(addresses, request, name, next, out).unwrap_or(0)
        }
        Meaning::LastTaken => 0,
        Meaning::NoRoomForAnswer => 0,
        Meaning::NoRoomForSubMessage => {
            requests::sent::write_acknowledgement(addresses, split::codes::stop(), out).unwrap_or(0)
        }
        Meaning::RefusedBy(_) => 0,
    }
}
