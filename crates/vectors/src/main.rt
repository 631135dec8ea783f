// Runs the frames of source document 003's table, the lengths of document 01's trade cases, and the days and the
// addresses of document 02, one line for each.
#![tactic(auto)]

mod addresses;
mod days;
mod hex;
mod lengths;
mod table;

use octets::refusal::Refusal;
use std::io;

// The number of a call: 0 where it is done.
fn number<T>(given: &Result<T, Refusal>) -> u8 {
    match given {
        Ok(_) => 0,
        Err(refusal) => u8::from(*refusal),
    }
}

fn compared(a: &[u8], b: &[u8]) -> &'static str {
    if a == b { "the same" } else { "not the same" }
}

fn main(rt: HostRuntime) -> io::Result<()> {
    table::rows(&rt)?;
    table::transfer_responses(&rt)?;
    table::negative_responses(&rt)?;
    lengths::lengths(&rt)?;
    days::days(&rt)?;
    addresses::addresses(&rt)
}
