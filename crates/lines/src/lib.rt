// What the program prints. This crate holds the definition (specs/) and its laws (proofs/).
#![tactic(auto)]
