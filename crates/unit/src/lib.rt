// The vehicle unit's call (document 01, The unit): which frames are heard, the refusals in order, and the reply from
// the store. Its state and its services are crate `services`.
#![tactic(auto)]

pub mod call;
mod reply;
