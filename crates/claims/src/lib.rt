// The three demands, each as one record, and their proofs. No code.
#![tactic(auto)]
