// The desk library: every public operation with its answers, and nothing else.
#![tactic(auto)]

pub use fill::fill;
pub use fits::{Verdict, show, test};
pub use lists::{first, next};
pub use refusals::Refusal;
