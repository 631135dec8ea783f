// The tool's state in 15 bytes: request, outcome, wire code, TREP, day (4), sendings, expected (2), held (4).
ghost use Rattle.std.specs.Prelude.{◌≡◌};
ghost use Rattle.states.specs.Packed.{request_from, outcome_byte, code_byte, outcome_from, packed_tool};
ghost use Rattle.states.specs.Packed.{is_tool, no_tool, unpacked_tool, tool_in};

use catalog::AnswerName;
use fields::big_endian::number_at;
use octets::byte::byte_at;
use progress::{Outcome, Request, ToolState};
use split::SubMessage;

// The bytes of a packed state.
pub const SIZE: usize = 15;

// The request of this number; one above 5 is taken for a transfer.
pub fn request_from(byte: u8) -> Request
    ensures { result ≡ request_from byte }
{
    Request::try_from(byte).unwrap_or(Request::Transfer)
}

// An outcome is two bytes, which the readers give one at a time, so no single conversion has it.
pub(crate) fn outcome_byte(outcome: Outcome) -> u8
    ensures { result ≡ outcome_byte outcome }
{
    match outcome {
        Outcome::Fresh => 0,
        Outcome::Waiting => 1,
        Outcome::Done => 2,
        Outcome::NoAnswer => 3,
        Outcome::NoRoom => 4,
        Outcome::Refused(_) => 5,
    }
}

pub(crate) fn code_byte(outcome: Outcome) -> u8
    ensures { result ≡ code_byte outcome }
{
    match outcome {
        Outcome::Refused(code) => code,
        _ => 0,
    }
}

#[tactic(auto, unfolding(crate::specs::Packed::outcome_from))]
fn outcome_from(byte: u8, code: u8) -> Outcome
    ensures { result ≡ outcome_from byte code }
{
    match byte {
        0 => Outcome::Fresh,
        1 => Outcome::Waiting,
        2 => Outcome::Done,
        3 => Outcome::NoAnswer,
        4 => Outcome::NoRoom,
        _ => Outcome::Refused(code),
    }
}

// The bytes of a state.
pub fn pack(state: ToolState) -> [u8; SIZE]
    ensures { result ≡ packed_tool state }
{
    let request = state.request;
    let outcome = state.outcome;
    let [day_0, day_1, day_2, day_3] = state.name.day.to_be_bytes();
    let [expected_0, expected_1] = state.expected.0.to_be_bytes();
    let [held_0, held_1, held_2, held_3] = state.held.to_be_bytes();
    [
        u8::from(request),
        outcome_byte(outcome),
        code_byte(outcome),
        state.name.trep,
        day_0,
        day_1,
        day_2,
        day_3,
        state.sendings,
        expected_0,
        expected_1,
        held_0,
        held_1,
        held_2,
        held_3,
    ]
}

fn is_state(bytes: &[u8]) -> bool
    ensures { result ≡ is_tool bytes.now }
{
    if bytes.len() != SIZE {
        return false;
    }
    if 5 < bytes[0] {
        return false;
    }
    if 5 < bytes[1] {
        return false;
    }
    if bytes[1] == 5 {
        return true;
    }
    bytes[2] == 0
}

fn no_tool() -> ToolState
    ensures { result ≡ no_tool }
{
    ToolState {
        request: Request::Start,
        outcome: Outcome::Waiting,
        name: AnswerName { trep: 0, day: 0 },
        sendings: 0,
        expected: SubMessage(0),
        held: 0,
    }
}

// The state in exactly 15 bytes; none where they are no state.
pub(crate) fn state_in(bytes: &[u8]) -> Option<ToolState>
    ensures { result ≡ tool_in bytes.now }
{
    if !is_state(bytes) {
        return None;
    }
    Some(ToolState {
        request: request_from(byte_at(bytes, 0)),
        outcome: outcome_from(byte_at(bytes, 1), byte_at(bytes, 2)),
        name: AnswerName {
            trep: byte_at(bytes, 3),
            day: number_at(bytes, 4, 4),
        },
        sendings: byte_at(bytes, 8),
        expected: SubMessage(fields::big_endian::number_of_two(
            byte_at(bytes, 9),
            byte_at(bytes, 10),
        )),
        held: number_at(bytes, 11, 4),
    })
}

// The same, or an impossible one where they are no state: it is refused in its turn, behind what comes before 11.
pub fn unpack(bytes: &[u8]) -> ToolState
    ensures { result ≡ unpacked_tool bytes.now }
{
    state_in(bytes).unwrap_or(no_tool())
}
