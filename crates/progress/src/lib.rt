// The download tool's state: how its request stands (document 01, The tool).
#![tactic(auto)]

use catalog::AnswerName;
use split::SubMessage;

pub mod codes;
pub mod next;
pub mod state;

// "One request at a time: start, session, upload, exit, stop or a transfer."
#[derive(Clone, Copy, Debug, PartialEq, Eq, Hash)]
pub enum Request {
    Start,
    Session,
    Upload,
    Exit,
    Stop,
    Transfer,
}

// How the last request stands; Fresh: nothing was begun.
#[derive(Clone, Copy, Debug, PartialEq, Eq, Hash)]
pub enum Outcome {
    Fresh,
    Waiting,
    Done,
    NoAnswer,
    NoRoom,
    // ended by this wire code
    Refused(u8),
}

// The request with its TREP and day, how it stands, the sendings of its last frame, the sub message expected and the
// bytes held.
#[derive(Clone, Copy, Debug, PartialEq, Eq, Hash)]
pub struct ToolState {
    pub request: Request,
    pub outcome: Outcome,
    pub name: AnswerName,
    pub sendings: u8,
    pub expected: SubMessage,
    pub held: u32,
}
