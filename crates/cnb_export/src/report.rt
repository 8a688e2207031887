// What `export` prints.
ghost use Rattle.std.specs.Prelude.{◌≡◌, ◌++◌, IfOk, OnOk, string_bytes};
ghost use Rattle.cnb_export.specs.Report.{dropped_line, dropped_lines, exported_text, image_line, layer_line};
ghost use Rattle.cnb_export.specs.Report.{layer_lines, word_of};

use crate::exported::{Exported, ExportedRow};
use cnb_toml::ImageName;
use cnb_world::{Memory, Text};
use std::alloc::{AllocError, Global};

fn word_of(reused: bool) -> &'static str
    ensures { result.now ≡ word_of reused }
{
    if reused { "reused " } else { "added " }
}

fn push_layer_line(text: &mut String, row: &ExportedRow) -> Result<(), AllocError>
    ensures { OnOk result (string_bytes text.new ≡ string_bytes text.old ++ layer_line row.now) }
{
    text.push_str(word_of(row.reused))?;
    text.push_str(row.id.as_str())?;
    text.push_str(":")?;
    text.push_str(row.layer.as_str())?;
    text.push_str("\n")?;
    Ok(())
}

fn layer_lines(alloc: Global, rows: &[ExportedRow]) -> Result<String, AllocError>
    ensures { IfOk result (λ lines. string_bytes lines ≡ layer_lines rows.now) }
{
    let mut lines = String::new(alloc);
    for row in rows {
        push_layer_line(&mut lines, row)?;
    }
    Ok(lines)
}

fn dropped_line(alloc: Global, number: u32) -> Result<String, AllocError>
    ensures { IfOk result (λ line. string_bytes line ≡ dropped_line number) }
{
    let line = format!(in alloc; "cache {number} dropped\n")?;
    Ok(line)
}

fn dropped_lines(alloc: Global, numbers: &[u32]) -> Result<String, AllocError>
    ensures { IfOk result (λ lines. string_bytes lines ≡ dropped_lines numbers.now) }
{
    let mut lines = String::new(alloc);
    for number in numbers {
        let line = dropped_line(alloc, *number)?;
        lines.push_str(line.as_str())?;
    }
    Ok(lines)
}

fn image_line(alloc: Global, name: &ImageName, rows: usize) -> Result<String, AllocError>
    ensures { IfOk result (λ line. string_bytes line ≡ image_line name.now rows) }
{
    let name = name.as_str();
    let line = format!(in alloc; "image {name} {rows} rows\n")?;
    Ok(line)
}

/// Each layer of an image, each cache that was dropped, and the image.
pub fn exported_text(alloc: Global, name: &ImageName, exported: &Exported) -> Result<Text, Memory>
    ensures { IfOk result (λ text. text ≡ exported_text name.now exported.now) }
{
    let mut text = layer_lines(alloc, exported.rows.as_slice())?;
    let dropped = dropped_lines(alloc, exported.gone.as_slice())?;
    let image = image_line(alloc, name, exported.image.rows.as_slice().len())?;
    text.push_str(dropped.as_str())?;
    text.push_str(image.as_str())?;
    Ok(Text::from_string(text))
}
