// What a call answers. This crate holds the definitions (specs/) and their laws (proofs/).
#![tactic(auto)]
