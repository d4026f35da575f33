// When a mode can be begun, and what the largest demand in an interval owes to it. This crate holds the definitions (specs/) and their laws (proofs/).
#![tactic(auto)]
