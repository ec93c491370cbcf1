// The build specification as definitions (specs/) and what holds of them (proofs/). No code.
#![tactic(auto)]
