// Demand 3 for the calls that C hosts link: statements and proofs over crates host and download, and no function.
#![tactic(auto)]
