// What a program could not read or write, and why.
#![tactic(auto)]

use std::{fmt, io};

#[derive(Drop)]
pub struct Failure {
    pub what: &'static str,
    pub error: io::Error,
}

impl fmt::Display for Failure {
    fn fmt<W: fmt::Write>(&self, f: &mut fmt::Formatter<W>) -> fmt::Result {
        let what = self.what;
        let error = self.error;
        write!(f, "{what}: {error}")
    }
}
