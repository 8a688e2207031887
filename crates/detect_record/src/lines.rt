// The lines of a record, one after another.
ghost use Rattle.std.specs.Prelude.{◌≡◌, ◌+◌, ◌≤◌, ◌∷◌, IfOk, IfErr, OnOk, Some, length};
ghost use Rattle.detect_record.specs.Lines.{lines_in};
ghost use Rattle.detect_record.specs.LinesLeft.{IsBadFirst, is_at_end};

use crate::line_fault::LineFault;
use crate::line_reading::first_line;
use crate::outcome::CheckFault;
use crate::parts::Line;
use std::alloc::Global;
use std::marker::Model;

/// The bytes of the lines that are left, of at most 16,777,216 bytes, and how many lines were taken. Contracts see the
/// lines that are left.
#[derive(Drop)]
pub(crate) struct Lines<'b> {
    left: &'b [u8],
    taken: u32,
}

impl<'b> Model for Lines<'b> {
    ghost use Rattle.std.specs.Prelude.{◌+◌, ◌≤◌, length};
    ghost use Rattle.detect_record.specs.Lines.{lines_in};
    ghost use Rattle.detect_record.specs.LinesLeft.{LinesLeft};

    ghost Value = { LinesLeft };

    ghost view = { λ a. record { taken = a.taken; left = lines_in a.left.now } };

    ghost invariant = { λ a. a.taken + length a.left.now ≤ 16777216 };
}

impl<'b> Lines<'b> {
    /// Before the first line of these bytes.
    pub(crate) fn new(bytes: &'b [u8]) -> Lines<'b>
        requires { length bytes.now ≤ 16777216 }
        ensures taken { result.taken ≡ 0 }
        ensures left { result.left ≡ lines_in bytes.now }
    {
        Lines {
            left: bytes,
            taken: 0,
        }
    }

    /// A reader that is at the same line.
    pub(crate) fn copy(&self) -> Lines<'b>
        ensures { result ≡ self.now }
    {
        Lines {
            left: self.left,
            taken: self.taken,
        }
    }

    /// Whether no line is left, and no bytes without a line feed.
    pub(crate) fn is_at_end(&self) -> bool
        ensures { result ≡ is_at_end self.now }
    {
        self.left.is_empty()
    }

    /// How many lines were taken.
    pub(crate) fn taken(&self) -> u32
        ensures count { result ≡ self.now.taken }
        ensures few { result ≤ 16777216 }
    {
        self.taken
    }

    /// Takes the next line. Where it is missing, has no line feed or no form, its number from 1 is given.
    pub(crate) fn next(&mut self, alloc: Global) -> Result<Line, CheckFault>
        ensures line { IfOk result (λ line. self.old.left ≡ Some line ∷ self.new.left) }
        ensures taken { OnOk result (self.new.taken ≡ self.old.taken + 1) }
        ensures bad { IfErr result (λ fault. IsBadFirst self.old fault) }
    {
        let number = self.taken + 1;
        match first_line(alloc, self.left) {
            Ok((line, rest)) => {
                self.left = rest;
                self.taken = number;
                Ok(line)
            }
            Err(LineFault::Bad) => Err(CheckFault::Bad { line: number }),
            Err(LineFault::Memory) => Err(CheckFault::Memory),
        }
    }
}
