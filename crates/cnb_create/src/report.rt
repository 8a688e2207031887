// What `create` prints.
ghost use Rattle.std.specs.Prelude.{◌≡◌, IfOk, string_bytes};
ghost use Rattle.cnb_create.specs.Report.{created_text, phases_text};

use crate::phases::Phases;
use cnb_build::built_text;
use cnb_detect::choice_text;
use cnb_export::{Exported, exported_text};
use cnb_restore::{analyzed_text, restored_text};
use cnb_toml::ImageName;
use cnb_world::{Memory, Text};
use std::alloc::Global;

// The lines of the phases before the export.
fn phases_text(alloc: Global, phases: &Phases) -> Result<String, Memory>
    ensures { IfOk result (λ text. string_bytes text ≡ phases_text phases.now) }
{
    let mut text = String::new(alloc);
    text.push_str(analyzed_text(alloc, &phases.analyzed)?.as_str())?;
    text.push_str(choice_text(alloc, &phases.group, phases.entries)?.as_str())?;
    text.push_str(restored_text(alloc, &phases.restored)?.as_str())?;
    text.push_str(built_text(alloc, &phases.group)?.as_str())?;
    Ok(text)
}

/// The lines of all phases.
pub(crate) fn created_text(
    alloc: Global,
    image: &ImageName,
    phases: &Phases,
    exported: &Exported,
) -> Result<Text, Memory>
    ensures { IfOk result (λ text. text ≡ created_text image.now phases.now exported.now) }
{
    let mut text = phases_text(alloc, phases)?;
    text.push_str(exported_text(alloc, image, exported)?.as_str())?;
    Ok(Text::from_string(text))
}
