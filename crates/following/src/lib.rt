// Where the tape of a module goes on after each tick. This crate holds the definitions (specs/) and their laws (proofs/).
#![tactic(auto)]
