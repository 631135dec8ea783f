// The states that follow: ended, waiting, and after a failed wait.
ghost use Rattle.std.specs.Prelude.{◌≡◌};
ghost use Rattle.progress.specs.Next.{ended, waits, after_failed_wait};

use crate::{Outcome, ToolState};
use split::SubMessage;

// The same request at its end.
pub fn end(state: ToolState, outcome: Outcome, held: u32) -> ToolState
    ensures { result ≡ ended state outcome held }
{
    let request = state.request;
    let kept = state.name;
    let expected = state.expected;
    ToolState {
        request,
        outcome,
        name: kept,
        sendings: state.sendings,
        expected,
        held,
    }
}

// The same request, waiting.
pub fn wait(state: ToolState, sendings: u8, expected: SubMessage, held: u32) -> ToolState
    ensures { result ≡ waits state sendings expected.0 held }
{
    let request = state.request;
    let name = state.name;
    ToolState {
        request,
        outcome: Outcome::Waiting,
        name,
        sendings,
        expected,
        held,
    }
}

// "after the third sending the request ends 'no answer' (DDP_027)"
pub fn after_failed_wait(state: ToolState) -> ToolState
    ensures { result ≡ after_failed_wait state }
{
    let expected = state.expected;
    let sendings = state.sendings;
    if 3 <= sendings {
        return end(state, Outcome::NoAnswer, state.held);
    }
    wait(state, sendings + 1, expected, state.held)
}
