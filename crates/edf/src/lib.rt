// What the exact test's verdicts mean for work on one processor. This crate holds the definitions (specs/) and their laws (proofs/).
#![tactic(auto)]
