// The sheet's bytes. This crate holds the definitions (specs/) and their laws (proofs/).
#![tactic(auto)]
