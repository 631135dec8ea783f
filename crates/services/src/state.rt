// The unit's state: fresh, possible, and what the phases mean.
ghost use Rattle.std.specs.Prelude.{◌≡◌};
ghost use Rattle.octets.specs.Numbers.{part_of_place};
ghost use Rattle.services.specs.State.{fresh_unit, is_closed, in_session, is_granted, name_sent};
ghost use Rattle.services.specs.State.{data_length, sendable, phase_possible, possible_at};

use crate::{Phase, UnitState};
use catalog::kind::Kind;
use catalog::{AnswerName, NO_ANSWER};
use octets::{Part, Place};
use split::SubMessage;

// A unit of this kind that was just switched on.
pub fn fresh(kind: u8) -> UnitState
    ensures { result ≡ fresh_unit kind }
{
    UnitState {
        kind,
        rate: 1,
        pending: 0,
        phase: Phase::Closed,
    }
}

impl Phase {
    pub fn is_closed(self) -> bool
        ensures { result ≡ is_closed self }
    {
        self == Phase::Closed
    }

    pub(crate) fn in_session(self) -> bool
        ensures { result ≡ in_session self }
    {
        self == Phase::Session
    }

    // Whether answers may be asked for: granted, or sending one already.
    pub(crate) fn is_granted(self) -> bool
        ensures { result ≡ is_granted self }
    {
        matches!(self, Phase::Granted | Phase::Sending(_, _))
    }
}

// The part of the store that a place says, whatever its number.
pub(crate) fn part_at(place: Place) -> Part
    ensures { result ≡ part_of_place place }
{
    Part {
        start: place.start,
        len: place.len,
    }
}

// The data bytes of an answer that is this part of the store, behind 76 and TREP.
pub(crate) fn data_length(part: Part) -> usize
    ensures { result ≡ data_length part }
{
    let len = part.len;
    if len < 2 { 0 } else { len - 2 }
}

// Whether the answer at this place is held and split, and has this sub message.
fn sendable(place: Place, message: SubMessage) -> bool
    ensures { result ≡ sendable place message }
{
    let k = message.0 as usize;
    let len = data_length(part_at(place));
    if place.number != 0 {
        return false;
    }
    if !split::pieces::is_split(len) {
        return false;
    }
    if k < 1 {
        return false;
    }
    k <= split::pieces::count_of(len)
}

#[tactic(auto, unfolding(crate::specs::State::phase_possible))]
fn phase_possible(phase: Phase, sent: Place) -> bool
    ensures { result ≡ phase_possible sent phase }
{
    match phase {
        Phase::Sending(_, last) => sendable(sent, last),
        _ => true,
    }
}

// Whether the state is possible, from the place of the answer that is being sent.
pub fn possible_at(state: UnitState, sent: Place) -> bool
    ensures { result ≡ possible_at sent state }
{
    let kind = state.kind;
    let rate = state.rate;
    let pending = state.pending;
    let phase = state.phase;
    Kind::try_from(kind).is_ok()
        & (((1 <= rate) & (rate <= 5)) & ((pending <= 5) & phase_possible(phase, sent)))
}

// The name of the answer that is being sent.
pub fn name_sent(phase: Phase) -> AnswerName
    ensures { result ≡ name_sent phase }
{
    match phase {
        Phase::Sending(name, _) => name,
        _ => NO_ANSWER,
    }
}
