// What `analyze` and `restore` print.
ghost use Rattle.std.specs.Prelude.{◌≡◌, ◌++◌, IfOk, OnOk, flat_map, string_bytes};
ghost use Rattle.std.specs.Option.{option_copied};
ghost use Rattle.cnb_restore.specs.Report.{analyzed_text, cache_line, name_or_none, part_text, restored_line};
ghost use Rattle.cnb_restore.specs.Report.{restored_text};

use crate::restored::{Restored, RestoredRow};
use cnb_toml::ImageName;
use cnb_world::{Memory, Text};
use image_docs::Analyzed;
use std::alloc::{AllocError, Global};

fn name_or_none(name: &Option<ImageName>) -> &str
    ensures { result.now ≡ name_or_none name.now }
{
    match name {
        Some(name) => name.as_str(),
        None => "none",
    }
}

/// The run image, and the previous image.
pub fn analyzed_text(alloc: Global, analyzed: &Analyzed) -> Result<Text, Memory>
    ensures { IfOk result (λ text. text ≡ analyzed_text analyzed.now) }
{
    let mut text = String::from_str(alloc, "run ")?;
    text.push_str(analyzed.run.as_str())?;
    text.push_str("\n")?;
    text.push_str("previous ")?;
    text.push_str(name_or_none(&analyzed.previous))?;
    text.push_str("\n")?;
    Ok(Text::from_string(text))
}

fn part_text(contents: bool) -> &'static str
    ensures { result.now ≡ part_text contents }
{
    if contents { " contents" } else { " metadata" }
}

fn push_restored_line(text: &mut String, row: &RestoredRow) -> Result<(), AllocError>
    ensures { OnOk result (string_bytes text.new ≡ string_bytes text.old ++ restored_line row.now) }
{
    text.push_str("restored ")?;
    text.push_str(row.id.as_str())?;
    text.push_str(":")?;
    text.push_str(row.layer.as_str())?;
    text.push_str(part_text(row.contents))?;
    text.push_str("\n")?;
    Ok(())
}

fn push_rows(text: &mut String, rows: &[RestoredRow]) -> Result<(), AllocError>
    ensures { OnOk result (string_bytes text.new ≡ string_bytes text.old ++ flat_map restored_line rows.now) }
{
    for row in rows {
        push_restored_line(text, row)?;
    }
    Ok(())
}

fn push_cache_line(
    alloc: Global,
    text: &mut String,
    told: &str,
    number: u32,
) -> Result<(), AllocError>
    ensures { OnOk result (string_bytes text.new ≡ string_bytes text.old ++ cache_line told.now number) }
{
    text.push_str(format!(in alloc; "cache {number}")?.as_str())?;
    text.push_str(told)?;
    text.push_str("\n")?;
    Ok(())
}

fn push_caches(
    alloc: Global,
    text: &mut String,
    told: &str,
    numbers: &[u32],
) -> Result<(), AllocError>
    ensures { OnOk result (string_bytes text.new
        ≡ string_bytes text.old ++ flat_map (cache_line told.now) numbers.now) }
{
    for number in numbers {
        push_cache_line(alloc, text, told, *number)?;
    }
    Ok(())
}

/// Each layer that was restored, each cache whose rows were refused, and each that was dropped.
pub fn restored_text(alloc: Global, restored: &Restored) -> Result<Text, Memory>
    ensures { IfOk result (λ text. text ≡ restored_text restored.now) }
{
    let mut text = String::new(alloc);
    push_rows(&mut text, restored.rows.as_slice())?;
    push_caches(alloc, &mut text, " unread", restored.unread.as_slice())?;
    push_caches(alloc, &mut text, " dropped", restored.gone.as_slice())?;
    Ok(Text::from_string(text))
}
