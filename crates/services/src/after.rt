// The state behind a good frame.
ghost use Rattle.std.specs.Prelude.{◌≡◌};
ghost use Rattle.services.specs.After.{with_phase, with_rate, phase_after, state_after};

use crate::{Phase, Reaction, UnitState};
use catalog::AnswerName;
use octets::Part;
use split::SubMessage;

fn with_rate(state: UnitState, rate: u8, pending: u8, phase: Phase) -> UnitState
    ensures { result ≡ with_rate state rate pending phase }
{
    UnitState {
        kind: state.kind,
        rate,
        pending,
        phase,
    }
}

// Every good frame heard clears a pending rate, except the one that sets it.
fn with_phase(state: UnitState, phase: Phase) -> UnitState
    ensures { result ≡ with_phase state phase }
{
    with_rate(state, state.rate, 0, phase)
}

// Only a split answer is still being sent behind its first frame.
fn phase_after(name: AnswerName, message: SubMessage, part: Part) -> Phase
    ensures { result ≡ phase_after name message part }
{
    if split::pieces::is_split(crate::state::data_length(part)) {
        return Phase::Sending(name, message);
    }
    Phase::Granted
}

// The state that a reaction leaves.
pub fn state_after(state: UnitState, reaction: Reaction) -> UnitState
    ensures { result ≡ state_after state reaction }
{
    let phase = state.phase;
    match reaction {
        Reaction::Ignored => state,
        Reaction::CommunicationStarted => with_rate(state, 1, 0, Phase::Started),
        Reaction::SessionOpened => with_phase(state, Phase::Session),
        Reaction::RateOffered(rate) => with_rate(state, state.rate, rate, phase),
        Reaction::RateChanged => with_rate(state, state.pending, 0, phase),
        Reaction::UploadGranted => with_phase(state, Phase::Granted),
        Reaction::AnswerSent(name, message, part) => {
            with_phase(state, phase_after(name, message, part))
        }
        Reaction::AnswerStopped => with_phase(state, Phase::Granted),
        Reaction::TransferExited => with_phase(state, Phase::Session),
        Reaction::CommunicationStopped => with_rate(state, 1, 0, Phase::Closed),
        Reaction::Negative(_, _) => with_phase(state, phase),
    }
}
