// What `build` prints.
ghost use Rattle.std.specs.Prelude.{◌≡◌, ◌++◌, IfOk, OnOk, string_bytes};
ghost use Rattle.cnb_build.specs.Report.{built_line, built_text};

use cnb_world::{Memory, Text};
use run_docs::{GroupDoc, GroupRow};
use std::alloc::{AllocError, Global};

fn push_built_line(text: &mut String, row: &GroupRow) -> Result<(), AllocError>
    ensures { OnOk result (string_bytes text.new ≡ string_bytes text.old ++ built_line row.now) }
{
    text.push_str("built ")?;
    text.push_str(row.key.id.as_str())?;
    text.push_str("@")?;
    text.push_str(row.key.version.as_str())?;
    text.push_str("\n")?;
    Ok(())
}

/// A line for each buildpack of a group.
pub fn built_text(alloc: Global, group: &GroupDoc) -> Result<Text, Memory>
    ensures { IfOk result (λ text. text ≡ built_text group.now) }
{
    let mut text = String::new(alloc);
    for row in group.as_slice() {
        push_built_line(&mut text, row)?;
    }
    Ok(Text::from_string(text))
}
