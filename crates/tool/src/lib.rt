// The download tool (document 01, The tool): what follows from every begin and event, and its calls.
#![tactic(auto)]

mod after;
pub mod call;
mod room;
