// Kits and the order of full lists: definitions and laws alone.
#![tactic(auto)]
