// What `rebase`, `base` and `show` print.
ghost use Rattle.std.specs.Prelude.{◌≡◌, ◌++◌, IfOk, OnOk, flat_map, string_bytes};
ghost use Rattle.cnb_rebase.specs.Report.{base_text, entrypoint_line, rebased_text, row_line};

use crate::image::run_count;
use cnb_toml::ImageName;
use cnb_world::{Memory, Path, Text};
use image_docs::{ImageDoc, Row, RunDoc};
use std::alloc::{AllocError, Global};

/// The image, and how many rows of its run image it has now.
pub(crate) fn rebased_text(
    alloc: Global,
    name: &ImageName,
    image: &ImageDoc,
) -> Result<Text, Memory>
    ensures { IfOk result (λ text. text ≡ rebased_text name.now image.now) }
{
    let name = name.as_str();
    let rows = run_count(image.rows.as_slice());
    let text = format!(in alloc; "rebased {name} {rows} run rows\n")?;
    Ok(Text::from_string(text))
}

/// The run image, and how many rows it has.
pub(crate) fn base_text(alloc: Global, name: &ImageName, image: &RunDoc) -> Result<Text, Memory>
    ensures { IfOk result (λ text. text ≡ base_text name.now image.now) }
{
    let name = name.as_str();
    let rows = image.rows.as_slice().len();
    let text = format!(in alloc; "run {name} {rows} rows\n")?;
    Ok(Text::from_string(text))
}

fn push_row_line(alloc: Global, text: &mut String, row: &Row) -> Result<(), Memory>
    ensures { OnOk result (string_bytes text.new ≡ string_bytes text.old ++ row_line row.now) }
{
    let digest = row.digest.text(alloc)?;
    text.push_str(row.role.as_str())?;
    text.push_str(" ")?;
    text.push_str(row.place.as_str())?;
    text.push_str(" ")?;
    text.push_str(digest.as_str())?;
    text.push_str(" ")?;
    text.push_str(row.by.as_str())?;
    text.push_str("\n")?;
    Ok(())
}

/// A line for each row.
pub(crate) fn row_lines(alloc: Global, rows: &[Row]) -> Result<String, Memory>
    ensures { IfOk result (λ text. string_bytes text ≡ flat_map row_line rows.now) }
{
    let mut text = String::new(alloc);
    for row in rows {
        push_row_line(alloc, &mut text, row)?;
    }
    Ok(text)
}

/// What starts an image.
pub(crate) fn entrypoint_line(alloc: Global, entrypoint: &Path) -> Result<String, AllocError>
    ensures { IfOk result (λ text. string_bytes text ≡ entrypoint_line entrypoint.now) }
{
    let entrypoint = entrypoint.as_str();
    format!(in alloc; "entrypoint {entrypoint}\n")
}
