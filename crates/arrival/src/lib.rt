// What a string that arrives means to the download tool (document 01, The tool).
#![tactic(auto)]

use octets::Part;
use octets::refusal::Refusal;
use split::Received;

pub mod event;
mod reply;
pub mod room;

// What an event means to a waiting tool.
#[derive(Clone, Copy, Debug, PartialEq, Eq, Hash)]
pub enum Meaning {
    Ignored,
    // a wait's end, a frame refused by the frame rules, or a number above the one expected
    FailedWait,
    // the reply to a fixed request
    Confirmed,
    // the whole answer in one frame
    WholeAnswer,
    // the sub message expected, and more to follow
    SubMessageTaken,
    // the sub message expected, and the last one
    LastTaken,
    // the whole answer does not fit the room
    NoRoomForAnswer,
    // the sub message expected does not fit the room
    NoRoomForSubMessage,
    // a wire code other than 78
    RefusedBy(u8),
}

// A string that arrives: where its data lies, what that is of the answer, how many bytes it adds to those held where it
// is taken, and what it means.
#[derive(Clone, Copy, Debug, PartialEq, Eq, Hash)]
pub struct Arrival {
    pub data: Result<Part, Refusal>,
    pub received: Received,
    pub new: usize,
    pub meaning: Meaning,
}
