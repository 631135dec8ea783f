// Readers of packed states: a number of the state, or NO_STATE where the bytes are no state.
ghost use Rattle.std.specs.Prelude.{◌≡◌};
ghost use Rattle.states.specs.Readers.{unit_value, unit_read, tool_value, tool_read};

use crate::{ToolReading, UnitReading};
use progress::ToolState;
use services::UnitState;

// No number of a state.
const NO_STATE: usize = 0xFFFFFFFFFFFFFFFF;

fn unit_value(what: UnitReading, unit: UnitState) -> usize
    ensures { result ≡ unit_value what unit }
{
    let phase = unit.phase;
    match what {
        UnitReading::Kind => usize::from(unit.kind),
        UnitReading::Rate => usize::from(unit.rate),
        UnitReading::Phase => usize::from(crate::pack_unit::phase_byte(phase)),
    }
}

pub fn read_unit(what: UnitReading, state: &[u8]) -> usize
    ensures { result ≡ unit_read what state.now }
{
    match crate::pack_unit::state_in(state) {
        Some(unit) => unit_value(what, unit),
        None => NO_STATE,
    }
}

fn tool_value(what: ToolReading, tool: ToolState) -> usize
    ensures { result ≡ tool_value what tool }
{
    let outcome = tool.outcome;
    match what {
        ToolReading::Outcome => usize::from(crate::pack_tool::outcome_byte(outcome)),
        ToolReading::Code => usize::from(crate::pack_tool::code_byte(outcome)),
        ToolReading::Expected => tool.expected.0 as usize,
        ToolReading::Held => tool.held as usize,
    }
}

pub fn read_tool(what: ToolReading, state: &[u8]) -> usize
    ensures { result ≡ tool_read what state.now }
{
    match crate::pack_tool::state_in(state) {
        Some(tool) => tool_value(what, tool),
        None => NO_STATE,
    }
}
