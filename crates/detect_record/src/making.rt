// The lines of the record that is made, one after another.
ghost use Rattle.std.specs.Prelude.{◌≡◌, codes, flat_map, string_bytes, IfOk};
ghost use Rattle.detect_record.specs.declared.parts.Line.TheVariants.{Answer, Group, Head, Target as TargetLine};
ghost use Rattle.detect_record.specs.Lines.{whole_line};
ghost use Rattle.detect_record.specs.Making.{answer_whole};
ghost use Rattle.detect_record.specs.RecordText.{IsPutBehind};

use crate::line_text::{answer_line, group_text, target_line};
use crate::outcome::RecordFault;
use crate::parts::GroupLine;
use crate::record_text::RecordText;
use cnb_toml::Target;
use cnb_world::Memory;
use detect_core::AnswerRow;
use std::alloc::Global;

fn head_line(alloc: Global) -> Result<String, Memory>
    ensures { IfOk result (λ text. string_bytes text ≡ codes "cnb-record 1") }
{
    Ok(String::from_str(alloc, "cnb-record 1")?)
}

/// Writes the first line.
#[tactic(auto, unfolding(crate::specs::Lines::line_text))]
pub(crate) fn put_head(alloc: Global, text: &mut RecordText) -> Result<(), RecordFault>
    ensures { IsPutBehind text.old (whole_line Head) text.new result }
{
    let line = head_line(alloc)?;
    text.push_line(line)
}

/// Writes the line of the target.
#[tactic(auto, unfolding(crate::specs::Lines::line_text))]
pub(crate) fn put_target(
    alloc: Global,
    target: &Option<Target>,
    text: &mut RecordText,
) -> Result<(), RecordFault>
    ensures { IsPutBehind text.old (whole_line (TargetLine target.now)) text.new result }
{
    let line = target_line(alloc, target)?;
    text.push_line(line)
}

#[tactic(auto, unfolding(crate::specs::Lines::line_text))]
fn put_answer(alloc: Global, row: &AnswerRow, text: &mut RecordText) -> Result<(), RecordFault>
    ensures { IsPutBehind text.old (answer_whole row.now) text.new result }
{
    let line = answer_line(alloc, &row.key, &row.probed)?;
    text.push_line(line)
}

/// Writes the line of a group or of a trial.
#[tactic(auto, unfolding(crate::specs::Lines::line_text))]
pub(crate) fn put_group_line(
    alloc: Global,
    line: &GroupLine,
    text: &mut RecordText,
) -> Result<(), RecordFault>
    ensures { IsPutBehind text.old (whole_line (Group line.now)) text.new result }
{
    let line = group_text(alloc, line)?;
    text.push_line(line)
}

/// Writes the lines of answers.
pub(crate) fn put_answers(
    alloc: Global,
    rows: &[AnswerRow],
    text: &mut RecordText,
) -> Result<(), RecordFault>
    ensures { IsPutBehind text.old (flat_map answer_whole rows.now) text.new result }
{
    for row in rows {
        match put_answer(alloc, row, text) {
            Ok(()) => {}
            Err(fault) => return Err(fault),
        }
    }
    Ok(())
}
