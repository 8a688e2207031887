// How a command ends.
ghost use Rattle.std.specs.Prelude.{◌≡◌};
ghost use Rattle.cnb_lifecycle.specs.Ends.{launched_code, status_code};

use crate::refusal::Refusal;

/// How a command ends.
#[derive(Drop)]
pub enum Status {
    /// The command did its work.
    Done,
    /// The command came to an end, but only a part of its text could be written.
    Output,
    /// The command was refused.
    Refused(Refusal),
    /// The launched child ended, with this code where it has one.
    Launched { code: Option<i32> },
}

// A child without a code, or with one that is no exit status, has this one.
const NO_CODE: u8 = 84;

fn launched_code(code: Option<i32>) -> u8
    ensures { result ≡ launched_code code }
{
    match code {
        Some(code) => u8::try_from(code).unwrap_or(NO_CODE),
        None => NO_CODE,
    }
}

impl Status {
    /// The exit status of the program.
    pub fn code(&self) -> u8
        ensures { result ≡ status_code self.now }
    {
        match self {
            Status::Done => 0,
            Status::Output => 7,
            Status::Refused(refusal) => refusal.code(),
            Status::Launched { code } => launched_code(*code),
        }
    }
}
