// The worked cases of documents 01 and 02: one table (specs/) and one proof that the definitions give it (proofs/).
#![tactic(auto)]
