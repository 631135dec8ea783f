// The tool's state: fresh, waiting, possible.
ghost use Rattle.std.specs.Prelude.{◌≡◌, ◌<◌};
ghost use Rattle.progress.specs.State.{fresh_tool, is_transfer, is_waiting, held_right, transfer_possible, possible};

use crate::{Outcome, Request, ToolState};
use catalog::AnswerName;
use split::SubMessage;
use split::pieces::PIECE;

// "If they would pass the room or 60,000"
pub const HELD_MOST: usize = 60000;

// A tool that has begun nothing.
pub fn fresh() -> ToolState
    ensures { result ≡ fresh_tool }
{
    ToolState {
        request: Request::Start,
        outcome: Outcome::Fresh,
        name: AnswerName { trep: 0, day: 0 },
        sendings: 0,
        expected: SubMessage(0),
        held: 0,
    }
}

impl Request {
    pub fn is_transfer(self) -> bool
        ensures { result ≡ is_transfer self }
    {
        self == Request::Transfer
    }
}

impl Outcome {
    pub fn is_waiting(self) -> bool
        ensures { result ≡ is_waiting self }
    {
        self == Outcome::Waiting
    }
}

// Whether so many bytes are held with this number expected: every sub message before it was full.
fn held_right(expected: usize, held: usize) -> bool
    requires { expected < 65536 }
    ensures { result ≡ held_right expected held }
{
    if expected == 1 {
        return held == 0;
    }
    if expected < 2 {
        return false;
    }
    held == 2 + PIECE * (expected - 1)
}

fn transfer_possible(state: ToolState, room_len: usize) -> bool
    ensures { result ≡ transfer_possible room_len state }
{
    let name = state.name;
    let held = state.held as usize;
    if catalog::check_name(name).is_err() {
        return false;
    }
    if !held_right(state.expected.0 as usize, held) {
        return false;
    }
    if room_len < held {
        return false;
    }
    held <= HELD_MOST
}

// Whether the state can be, with a room of this length. Every state that does not wait can.
pub fn possible(state: ToolState, room_len: usize) -> bool
    ensures { result ≡ possible room_len state }
{
    let outcome = state.outcome;
    let request = state.request;
    let sendings = state.sendings;
    if !outcome.is_waiting() {
        return true;
    }
    if sendings < 1 {
        return false;
    }
    if 3 < sendings {
        return false;
    }
    if !request.is_transfer() {
        return true;
    }
    transfer_possible(state, room_len)
}
