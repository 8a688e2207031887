// What `detect` prints.
ghost use Rattle.std.specs.Prelude.{◌≡◌, ◌++◌, IfOk, OnOk, string_bytes};
ghost use Rattle.cnb_detect.specs.Report.{choice_text, pass_line, pass_lines};

use cnb_world::{Memory, Text};
use run_docs::{GroupDoc, GroupRow};
use std::alloc::{AllocError, Global};

/// The lines of a choice: its buildpacks, and how many entries the plan has.
pub fn choice_text(alloc: Global, group: &GroupDoc, entries: usize) -> Result<Text, Memory>
    ensures { IfOk result (λ text. text ≡ choice_text group.now entries) }
{
    let mut text = pass_lines(alloc, group.as_slice())?;
    text.push_str(format!(in alloc; "plan {entries}\n")?.as_str())?;
    Ok(Text::from_string(text))
}

fn pass_lines(alloc: Global, group: &[GroupRow]) -> Result<String, AllocError>
    ensures { IfOk result (λ text. string_bytes text ≡ pass_lines group.now) }
{
    let mut text = String::new(alloc);
    for row in group {
        push_pass_line(&mut text, row)?;
    }
    Ok(text)
}

fn push_pass_line(text: &mut String, row: &GroupRow) -> Result<(), AllocError>
    ensures { OnOk result (string_bytes text.new ≡ string_bytes text.old ++ pass_line row.now) }
{
    text.push_str("pass ")?;
    text.push_str(row.key.id.as_str())?;
    text.push_str("@")?;
    text.push_str(row.key.version.as_str())?;
    text.push_str("\n")?;
    Ok(())
}
