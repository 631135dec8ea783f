// What a string that arrives means to a waiting tool.
ghost use Rattle.std.specs.Prelude.{◌≡◌, cond, length};
ghost use Rattle.arrival.specs.Meaning.{new_bytes, received_by, meaning_of, takes};
ghost use Rattle.arrival.specs.Meaning.{is_refusal, refusal_meaning, data_meaning, arrival_of, shown};

use crate::{Arrival, Meaning};
use frame::{Addresses, End};
use octets::Place;
use octets::wire::{NEGATIVE, RESPONSE_PENDING};
use progress::ToolState;
use split::Received;

fn is_refusal(state: ToolState, data: &[u8]) -> bool
    ensures { result ≡ is_refusal state «data».now }
{
    let request = state.request;
    let expected = state.expected;
    if data.len() != 3 {
        return false;
    }
    if data[0] != NEGATIVE {
        return false;
    }
    data[1] == crate::reply::sid_sent(request, expected)
}

// Code 78 starts the wait anew, any other ends the request.
fn refusal_meaning(code: u8) -> Meaning
    ensures { result ≡ refusal_meaning code }
{
    if code == RESPONSE_PENDING {
        return Meaning::Ignored;
    }
    Meaning::RefusedBy(code)
}

// What is taken where it fits, and how the request ends where it does not.
fn taken_or(fits: bool, taken: Meaning, ended: Meaning) -> Meaning
    ensures { result ≡ cond fits taken ended }
{
    if fits { taken } else { ended }
}

fn meaning_of(received: Received, fits: bool) -> Meaning
    ensures { result ≡ meaning_of received fits }
{
    let ended = Meaning::NoRoomForSubMessage;
    match received {
        Received::Whole => taken_or(fits, Meaning::WholeAnswer, Meaning::NoRoomForAnswer),
        Received::Full => taken_or(fits, Meaning::SubMessageTaken, ended),
        Received::Last => taken_or(fits, Meaning::LastTaken, ended),
        Received::Above => Meaning::FailedWait,
        Received::Other => Meaning::Ignored,
    }
}

// What the data of a good frame means, which is `received` of the answer and adds `new` bytes.
fn data_meaning(
    state: ToolState,
    data: &[u8],
    received: Received,
    new: usize,
    room_len: usize,
) -> Meaning
    requires received_value { received ≡ received_by state «data».now }
    requires value { new ≡ length (new_bytes state received «data».now) }
    ensures { result ≡ data_meaning room_len state «data».now }
{
    let request = state.request;
    if is_refusal(state, data) {
        return refusal_meaning(octets::byte::byte_at(data, 2));
    }
    if request.is_transfer() {
        return meaning_of(received, crate::room::fits_in(state, new, room_len));
    }
    if crate::reply::is_reply(request, data) {
        Meaning::Confirmed
    } else {
        Meaning::Ignored
    }
}

impl Meaning {
    // Whether the frame's bytes go into the room.
    #[tactic(auto, unfolding(crate::specs::Meaning::takes))]
    pub fn takes(self) -> bool
        ensures { result ≡ takes self }
    {
        matches!(
            self,
            Meaning::WholeAnswer | Meaning::SubMessageTaken | Meaning::LastTaken
        )
    }
}

// A string that arrives, with a room of this length, for any two addresses: it is judged once.
// One that the frame rules refuse is a failed wait.
pub fn arrival_of(addresses: Addresses, state: ToolState, frame: &[u8], room_len: usize) -> Arrival
    ensures { shown result ≡ arrival_of addresses room_len state frame.now }
{
    let expected = state.expected;
    let located = frame::check::locate(addresses, frame, End::Tool);
    let place = Place::from(located);
    let start = place.start;
    let end = start + place.len;
    let data = &frame[start..end]; // no test: it lies there (`place-within`)
    let received = split::join::receive(data, state.name.trep, expected);
    let new = crate::room::new_length(state, received, data);
    let meaning = match located {
        Ok(_) => data_meaning(state, data, received, new, room_len),
        Err(_) => Meaning::FailedWait,
    };
    Arrival {
        data: located,
        received,
        new,
        meaning,
    }
}
