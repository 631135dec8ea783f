// The calls for C hosts on numbers and byte slices (host/include/tacho.h). Every call is total; the states of unit and
// tool are packed bytes. A library exports nothing: C links crate `host_c`, which has a function of the same name and
// clauses for each of these.
#![tactic(auto)]

pub mod arrays;
pub mod bench_store;
pub mod frames;
pub mod readers;
pub mod splitting;
pub mod tool_calls;
pub mod unit_calls;
