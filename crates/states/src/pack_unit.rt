// The unit's state in 11 bytes: kind, rate, pending rate (0 none), phase, TREP, day (4), last number sent (2).
ghost use Rattle.std.specs.Prelude.{◌≡◌};
ghost use Rattle.states.specs.Packed.{phase_byte, phase_from, name_packed, last_packed, packed_unit, is_unit, no_unit};
ghost use Rattle.states.specs.Packed.{unpacked_unit, unit_in};

use catalog::AnswerName;
use fields::big_endian::number_at;
use octets::byte::byte_at;
use services::{Phase, UnitState};
use split::SubMessage;

// The bytes of a packed state.
pub const SIZE: usize = 11;

pub(crate) fn phase_byte(phase: Phase) -> u8
    ensures { result ≡ phase_byte phase }
{
    match phase {
        Phase::Closed => 0,
        Phase::Started => 1,
        Phase::Session => 2,
        Phase::Granted => 3,
        Phase::Sending(_, _) => 4,
    }
}

#[tactic(auto, unfolding(crate::specs::Packed::phase_from))]
fn phase_from(byte: u8, name: AnswerName, last: SubMessage) -> Phase
    ensures { result ≡ phase_from byte name last }
{
    match byte {
        0 => Phase::Closed,
        1 => Phase::Started,
        2 => Phase::Session,
        3 => Phase::Granted,
        _ => Phase::Sending(name, last),
    }
}

fn name_packed(phase: Phase) -> AnswerName
    ensures { result ≡ name_packed phase }
{
    match phase {
        Phase::Sending(name, _) => name,
        _ => AnswerName { trep: 0, day: 0 },
    }
}

fn last_packed(phase: Phase) -> SubMessage
    ensures { result ≡ last_packed phase }
{
    match phase {
        Phase::Sending(_, last) => last,
        _ => SubMessage(0),
    }
}

// The bytes of a state.
pub fn pack(state: UnitState) -> [u8; SIZE]
    ensures { result ≡ packed_unit state }
{
    let phase = state.phase;
    let name = name_packed(phase);
    let [day_0, day_1, day_2, day_3] = name.day.to_be_bytes();
    let [last_0, last_1] = last_packed(phase).0.to_be_bytes();
    [
        state.kind,
        state.rate,
        state.pending,
        phase_byte(phase),
        name.trep,
        day_0,
        day_1,
        day_2,
        day_3,
        last_0,
        last_1,
    ]
}

fn is_state(bytes: &[u8]) -> bool
    ensures { result ≡ is_unit bytes.now }
{
    if bytes.len() != SIZE {
        return false;
    }
    if bytes[3] == 4 {
        return true;
    }
    if 3 < bytes[3] {
        return false;
    }
    if bytes[4] != 0 {
        return false;
    }
    if number_at(bytes, 5, 4) != 0 {
        return false;
    }
    number_at(bytes, 9, 2) == 0
}

fn no_unit() -> UnitState
    ensures { result ≡ no_unit }
{
    UnitState {
        kind: 255,
        rate: 0,
        pending: 0,
        phase: Phase::Closed,
    }
}

// The state in exactly 11 bytes; none where they are no state.
pub(crate) fn state_in(bytes: &[u8]) -> Option<UnitState>
    ensures { result ≡ unit_in bytes.now }
{
    if !is_state(bytes) {
        return None;
    }
    let name = AnswerName {
        trep: byte_at(bytes, 4),
        day: number_at(bytes, 5, 4),
    };
    let last = SubMessage(fields::big_endian::number_of_two(byte_at(bytes, 9), byte_at(bytes, 10)));
    Some(UnitState {
        kind: byte_at(bytes, 0),
        rate: byte_at(bytes, 1),
        pending: byte_at(bytes, 2),
        phase: phase_from(byte_at(bytes, 3), name, last),
    })
}

// The same, or an impossible one where they are no state: it is refused in its turn, behind what comes before 11.
pub fn unpack(bytes: &[u8]) -> UnitState
    ensures { result ≡ unpacked_unit bytes.now }
{
    state_in(bytes).unwrap_or(no_unit())
}
