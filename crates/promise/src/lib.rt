// What an answer of the exact test promises for work on one processor. This crate holds the promise (specs/) and its theorems (proofs/).
#![tactic(auto)]
