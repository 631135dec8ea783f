// Readers of packed states, for C.
ghost use Rattle.std.specs.Prelude.{◌≡◌};
ghost use Rattle.states.specs.Readers.{unit_read, tool_read};
ghost use Rattle.states.specs.declared.UnitReading.TheVariants as units;
ghost use Rattle.states.specs.declared.ToolReading.TheVariants as tools;

#[unsafe(no_mangle)]
pub extern "C" fn tacho_unit_kind(state: &[u8]) -> usize
    ensures { result ≡ unit_read units.Kind state.now }
{
    host::readers::tacho_unit_kind(state)
}

#[unsafe(no_mangle)]
pub extern "C" fn tacho_unit_rate(state: &[u8]) -> usize
    ensures { result ≡ unit_read units.Rate state.now }
{
    host::readers::tacho_unit_rate(state)
}

#[unsafe(no_mangle)]
pub extern "C" fn tacho_unit_phase(state: &[u8]) -> usize
    ensures { result ≡ unit_read units.Phase state.now }
{
    host::readers::tacho_unit_phase(state)
}

#[unsafe(no_mangle)]
pub extern "C" fn tacho_tool_outcome(state: &[u8]) -> usize
    ensures { result ≡ tool_read tools.Outcome state.now }
{
    host::readers::tacho_tool_outcome(state)
}

#[unsafe(no_mangle)]
pub extern "C" fn tacho_tool_code(state: &[u8]) -> usize
    ensures { result ≡ tool_read tools.Code state.now }
{
    host::readers::tacho_tool_code(state)
}

#[unsafe(no_mangle)]
pub extern "C" fn tacho_tool_expected(state: &[u8]) -> usize
    ensures { result ≡ tool_read tools.Expected state.now }
{
    host::readers::tacho_tool_expected(state)
}

#[unsafe(no_mangle)]
pub extern "C" fn tacho_tool_held(state: &[u8]) -> usize
    ensures { result ≡ tool_read tools.Held state.now }
{
    host::readers::tacho_tool_held(state)
}
