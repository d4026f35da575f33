// What a timing sheet means. This crate holds the definitions (specs/) and their laws (proofs/).
#![tactic(auto)]
