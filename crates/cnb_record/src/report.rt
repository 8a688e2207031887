// What `check` prints.
ghost use Rattle.std.specs.Prelude.{◌≡◌, IfOk};
ghost use Rattle.cnb_record.specs.Report.{checked_text};

use cnb_world::{Memory, Text};
use std::alloc::Global;

/// The line of a record that proves: the chosen group's place and the number of its trial, both counted from 0.
pub(crate) fn checked_text(alloc: Global, place: u32, trial: u32) -> Result<Text, Memory>
    ensures { IfOk result (λ text. text ≡ checked_text place trial) }
{
    let text = format!(in alloc; "checked {place} {trial}\n")?;
    Ok(Text::from_string(text))
}
