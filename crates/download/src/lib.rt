// The download over the cable: unit and tool on one line (document 01, The line and the book), and the trade cases.
// Definitions (specs/) and what is proved of them (proofs/); there is no function.
#![tactic(auto)]
