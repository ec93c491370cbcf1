// Lists and numbers, with no word of boxes: definitions in specs/, laws in proofs/. No code.
#![tactic(auto)]
