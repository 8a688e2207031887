// The answers of a record.
ghost use Rattle.std.specs.Prelude.{◌≡◌, ◌+◌, ◌++◌, ◌∷◌, [], ℕ, List as Seq, Option as Maybe, IfOk, IfSome, length};
ghost use Rattle.cnb_toml.specs.declared.names.Key.{Key};
ghost use Rattle.cnb_toml.specs.declared.target.Target.{Target};
ghost use Rattle.order_expand.specs.declared.member.Member.{Member};
ghost use Rattle.detect_core.specs.declared.chosen.Verdict.{Verdict};
ghost use Rattle.detect_record.specs.Checking.{Answering};
ghost use Rattle.detect_record.specs.Record.{AtGroup};
ghost use Rattle.detect_record.specs.Following.{GoesOn, IsAdded, answer_row_of, answered_or_behind, checks, known_by};
ghost use Rattle.detect_record.specs.Following.{reads};

use crate::following::refused;
use crate::lines::Lines;
use crate::outcome::CheckFault;
use crate::parts::Line;
use detect_core::{AnswerRow, Kept, answer};
use std::alloc::Global;

fn answer_row(line: Line) -> Option<AnswerRow>
    ensures { result ≡ answer_row_of line }
{
    match line {
        Line::Answer(key, probed) => Some(AnswerRow { key, probed }),
        _ => None,
    }
}

// Takes the next line where it is an answer. The line of a group is left.
fn next_answer(alloc: Global, lines: &mut Lines) -> Result<Option<AnswerRow>, CheckFault>
    ensures goes_on { (groups : Seq (Seq Member)) (target : Maybe Target) (answers : Seq (Key × Verdict))
        → GoesOn result (reads groups (Answering target answers) lines.old)
        (answered_or_behind groups target answers lines.new) }
    ensures fewer { IfOk result (λ row. IfSome row (λ _. length lines.old.left ≡ length lines.new.left + 1)) }
{
    let mut ahead = lines.copy();
    let line = ahead.next(alloc)?;
    let Some(row) = answer_row(line) else {
        return Ok(None);
    };
    *lines = ahead;
    Ok(Some(row))
}

// Adds what a buildpack's child said, unless it is there.
fn add_answer(alloc: Global, row: AnswerRow, kept: &mut Kept, taken: u32) -> Result<(), CheckFault>
    ensures { IsAdded result taken row.key row.probed kept.old kept.new }
{
    if kept.has(&row.key) {
        return Err(CheckFault::Bad { line: taken });
    }
    let verdict = answer(alloc, &row.probed)?;
    kept.add(row.key, verdict)?;
    Ok(())
}

/// Reads the answers, up to the line of a group.
pub(crate) fn read_answers(
    alloc: Global,
    lines: &mut Lines,
    kept: &mut Kept,
) -> Result<(), CheckFault>
    requires { kept.old ≡ [] }
    ensures { (groups : Seq (Seq Member)) (target : Maybe Target)
        → GoesOn result (reads groups (Answering target []) lines.old)
        (λ _. checks (known_by target kept.new groups) (AtGroup 0 groups) lines.new) }
{
    while let Some(row) = next_answer(alloc, lines)? {
        add_answer(alloc, row, kept, lines.taken())?;
    }
    Ok(())
}
