// What filling a sheet rests on: steps, growth, rest, and what Fill says, as laws over the definitions. No code.
#![tactic(auto)]
