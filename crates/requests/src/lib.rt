// The frames that the tool sends (document 01, The tool): its requests and acknowledgements.
#![tactic(auto)]

pub mod sent;
