// Why-lists: definitions and laws alone.
#![tactic(auto)]
