// What is written for a line of text: nothing, the answer to a call, or what is wrong with the line.
#![tactic(auto)]

pub mod operations;
pub mod reply;
pub mod rows;
pub mod words;
