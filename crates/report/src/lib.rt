// What the listing program writes, as bytes in a lent buffer: its lines, the lists asked for one after the other, the whole.
#![tactic(auto)]

pub mod asking;
pub mod lines;
pub mod listing;
