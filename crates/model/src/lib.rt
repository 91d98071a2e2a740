// The model of the two indexes (specs/) and the proof of the claim about histories (proofs/).
#![tactic(auto)]
