// The command `show`.
ghost use Rattle.std.specs.Prelude.{◌≡◌, IfOk, Ok};
ghost use Rattle.cnb_words.specs.Show.{KeepsLimits};
ghost use Rattle.steps.specs.Outside.{Seen, seen};
ghost use Rattle.steps.specs.Steps.{gives};
ghost use Rattle.image_files.specs.Faults.{cause_of};
ghost use Rattle.cnb_rebase.specs.Report.{image_text};
ghost use Rattle.cnb_rebase.specs.Shows.{shows_command};

use crate::report::{entrypoint_line, row_lines};
use cnb_words::ShowWords;
use cnb_world::{Memory, Text, World};
use image_docs::ImageDoc;
use image_files::{ImageFault, read_image};
use std::alloc::Global;

/// The rows of an image, a line each, and what starts it.
pub fn show(alloc: Global, image: &ImageDoc) -> Result<Text, Memory>
    ensures { IfOk result (λ text. text ≡ image_text image.now) }
{
    let mut text = row_lines(alloc, image.rows.as_slice())?;
    let line = entrypoint_line(alloc, &image.entrypoint)?;
    text.push_str(line.as_str())?;
    Ok(Text::from_string(text))
}

// The text to be printed of an image.
#[tactic(auto, unfolding(steps::specs::Steps::gives))]
fn shown(alloc: Global, image: &ImageDoc) -> Result<Text, ImageFault>
    ensures { (old : Seen) → gives cause_of (Ok (image_text image.now)) old result old }
{
    let text = show(alloc, image)?;
    Ok(text)
}

/// Reads an image, and gives the text to be printed.
pub fn show_command<W: World>(
    alloc: Global,
    options: &ShowWords,
    world: &mut W,
) -> Result<Text, ImageFault>
    requires { KeepsLimits options.now }
    ensures steps { shows_command options.now (seen W.World world.old) result (seen W.World world.new) }
{
    let image = read_image(alloc, world, &options.store, &options.image)?;
    shown(alloc, &image)
}
