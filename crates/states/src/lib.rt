// The states of unit and tool as bytes that a host keeps, and what it reads of them.
#![tactic(auto)]

pub mod pack_tool;
pub mod pack_unit;
pub mod readers;

// What is read of a unit's state.
#[derive(Clone, Copy, Debug, PartialEq, Eq, Hash)]
pub enum UnitReading {
    Kind,
    Rate,
    Phase,
}

// What is read of a tool's state.
#[derive(Clone, Copy, Debug, PartialEq, Eq, Hash)]
pub enum ToolReading {
    Outcome,
    Code,
    Expected,
    Held,
}
