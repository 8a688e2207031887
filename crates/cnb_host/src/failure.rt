// The call that failed last, in words for a person.

use crate::cause::Cause;
use std::alloc::{AllocError, Global};

/// What a call was to do, and why it failed.
#[derive(Clone, Copy)]
pub struct Failure {
    pub task: &'static str,
    pub cause: Cause,
}

impl Failure {
    /// A child could not be run.
    pub fn to_run(cause: Cause) -> Failure {
        Failure {
            task: "run the program",
            cause,
        }
    }

    /// The cause, what was tried and, where that is known, what to do.
    pub fn text(&self, alloc: Global) -> Result<String, AllocError> {
        let cause = self.cause.text(alloc)?;
        match self.cause.remedy() {
            Some(remedy) => format!(in alloc; "{} ({}): {remedy}", cause.as_str(), self.task),
            None => format!(in alloc; "{} ({})", cause.as_str(), self.task),
        }
    }
}
