// The calls of crate host under their names for C (host/include/tacho.h), as a static library. Each hands its arguments
// on to the call of that name and promises what that call promises.
#![tactic(auto)]

pub mod arrays;
pub mod bench_store;
pub mod frames;
pub mod readers;
pub mod splitting;
pub mod tool_calls;
pub mod unit_calls;
