// The lines of groups and trials, one after another.
ghost use Rattle.std.specs.Prelude.{◌≡◌, ◌+◌, IsTrue};
ghost use Rattle.detect_record.specs.declared.outcome.CheckFault.TheVariants.{Bad};
ghost use Rattle.detect_record.specs.Record.{Stage};
ghost use Rattle.detect_record.specs.Following.{GoesOn, IsGroupLine, Known, after_line, checks, checks_on, wants_line};

use crate::lines::Lines;
use crate::outcome::CheckFault;
use crate::parts::{GroupLine, Line};
use std::alloc::Global;

/// The line that was taken last meets no rule.
pub(crate) fn refused(lines: &Lines) -> CheckFault
    ensures { result ≡ Bad lines.now.taken }
{
    CheckFault::Bad {
        line: lines.taken(),
    }
}

/// The next line is missing, or meets no rule whatever it is.
pub(crate) fn missing(lines: &Lines) -> CheckFault
    ensures { result ≡ Bad (lines.now.taken + 1) }
{
    CheckFault::Bad {
        line: lines.taken() + 1,
    }
}

fn group_line(line: Line, taken: u32) -> Result<GroupLine, CheckFault>
    ensures { IsGroupLine result taken line }
{
    match line {
        Line::Group(line) => Ok(line),
        _ => Err(CheckFault::Bad { line: taken }),
    }
}

/// Takes the line of a group or of a trial.
pub(crate) fn next_group(alloc: Global, lines: &mut Lines) -> Result<GroupLine, CheckFault>
    ensures { (known : Known) (stage : Stage) → IsTrue (wants_line stage)
        → GoesOn result (checks known stage lines.old)
        (λ line. checks_on known (after_line known stage line) lines.new) }
{
    let line = lines.next(alloc)?;
    group_line(line, lines.taken())
}
