// List definitions (specs/) and their laws (proofs/).
#![tactic(auto)]
