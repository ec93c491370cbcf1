// The fields of a line, parted by one space: a word among others, what is a field, and the bytes that fields give.
#![tactic(auto)]

pub mod cut;
pub mod field;
pub mod parts;
pub mod word;
