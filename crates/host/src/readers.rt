// Readers of packed states: a number of the state, or the largest number where the bytes are no state.
ghost use Rattle.std.specs.Prelude.{◌≡◌};
ghost use Rattle.states.specs.Readers.{unit_read, tool_read};
ghost use Rattle.states.specs.declared.UnitReading.TheVariants as units;
ghost use Rattle.states.specs.declared.ToolReading.TheVariants as tools;

use states::{ToolReading, UnitReading};

// The kind of a unit.
#[unsafe(no_mangle)]
pub extern "C" fn tacho_unit_kind(state: &[u8]) -> usize
    ensures { result ≡ unit_read units.Kind state.now }
{
    states::readers::read_unit(UnitReading::Kind, state)
}

// Its baud rate as the bytes have it: 1 to 5 in a possible state.
#[unsafe(no_mangle)]
pub extern "C" fn tacho_unit_rate(state: &[u8]) -> usize
    ensures { result ≡ unit_read units.Rate state.now }
{
    states::readers::read_unit(UnitReading::Rate, state)
}

// Its phase.
#[unsafe(no_mangle)]
pub extern "C" fn tacho_unit_phase(state: &[u8]) -> usize
    ensures { result ≡ unit_read units.Phase state.now }
{
    states::readers::read_unit(UnitReading::Phase, state)
}

// How the tool's request stands.
#[unsafe(no_mangle)]
pub extern "C" fn tacho_tool_outcome(state: &[u8]) -> usize
    ensures { result ≡ tool_read tools.Outcome state.now }
{
    states::readers::read_tool(ToolReading::Outcome, state)
}

// The wire code that ended it, 0 for none.
#[unsafe(no_mangle)]
pub extern "C" fn tacho_tool_code(state: &[u8]) -> usize
    ensures { result ≡ tool_read tools.Code state.now }
{
    states::readers::read_tool(ToolReading::Code, state)
}

// The sub message that it expects.
#[unsafe(no_mangle)]
pub extern "C" fn tacho_tool_expected(state: &[u8]) -> usize
    ensures { result ≡ tool_read tools.Expected state.now }
{
    states::readers::read_tool(ToolReading::Expected, state)
}

// The bytes of the answer that lie in its room.
#[unsafe(no_mangle)]
pub extern "C" fn tacho_tool_held(state: &[u8]) -> usize
    ensures { result ≡ tool_read tools.Held state.now }
{
    states::readers::read_tool(ToolReading::Held, state)
}
