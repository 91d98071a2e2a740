// This crate holds the laws of a query of either index (proofs/): how words of votes become candidates, and candidates an answer.
#![tactic(auto)]
