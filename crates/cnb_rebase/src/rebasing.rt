// The command `rebase`.
ghost use Rattle.std.specs.Prelude.{◌≤◌, IfOk, IsTrue, Ok, OnOk, length};
ghost use Rattle.cnb_toml.specs.Names.{is_image_name};
ghost use Rattle.cnb_words.specs.Rebase.{KeepsLimits};
ghost use Rattle.image_docs.specs.Image.{is_image_doc};
ghost use Rattle.image_files.specs.Images.{ImageStands};
ghost use Rattle.steps.specs.Outside.{seen};
ghost use Rattle.steps.specs.Results.{and_then};
ghost use Rattle.cnb_rebase.specs.Rebases.{rebases, rebases_command, rebases_on, saves_rebased};

use crate::image::rebased;
use crate::refusal::RebaseFault;
use crate::report::rebased_text;
use cnb_toml::ImageName;
use cnb_words::RebaseWords;
use cnb_world::{Path, Text, World};
use image_docs::ImageDoc;
use image_files::{read_image, read_run_image, save_image};
use std::alloc::Global;

// What the type of an image's name says of it.
fn named(name: &ImageName)
    ensures { IsTrue (is_image_name name.now) }
{
    let _name = name.as_str();
}

// Puts an image on the run image of a name.
fn put_on_run<W: World>(
    alloc: Global,
    world: &mut W,
    store: &Path,
    image: &mut ImageDoc,
    run: &ImageName,
) -> Result<(), RebaseFault>
    requires { length store.now ≤ 4096 }
    ensures steps { rebases_on store.now run.now image.old
        (seen W.World world.old) (and_then result (λ done. Ok image.new)) (seen W.World world.new) }
    ensures readable { IsTrue (is_image_doc image.old) → OnOk result (IsTrue (is_image_doc image.new)) }
{
    named(run);
    let base = read_run_image(alloc, world, store, run)?;
    rebased(alloc, image, run, &base)
}

/// The image of a name on another run image (platform.md, "rebaser"). Nothing is written.
pub fn rebase<W: World>(
    alloc: Global,
    world: &mut W,
    store: &Path,
    image: &ImageName,
    run: &ImageName,
) -> Result<ImageDoc, RebaseFault>
    requires { length store.now ≤ 4096 }
    ensures steps { rebases store.now image.now run.now (seen W.World world.old) result (seen W.World world.new) }
    ensures readable { IfOk result (λ image. IsTrue (is_image_doc image)) }
{
    let mut image = read_image(alloc, world, store, image)?;
    put_on_run(alloc, world, store, &mut image, run)?;
    Ok(image)
}

// Makes the text, and writes the image's document.
fn save_rebased<W: World>(
    alloc: Global,
    options: &RebaseWords,
    world: &mut W,
    image: &ImageDoc,
) -> Result<Text, RebaseFault>
    requires limits { KeepsLimits options.now }
    requires readable { IsTrue (is_image_doc image.now) }
    ensures steps { saves_rebased options.now image.now (seen W.World world.old) result (seen W.World world.new) }
{
    let text = rebased_text(alloc, &options.image, image)?;
    save_image(alloc, world, &options.store, &options.image, image)?;
    Ok(text)
}

/// Puts an image on another run image, writes its document, and gives the text to be printed (platform.md, "rebaser").
pub fn rebase_command<W: World>(
    alloc: Global,
    options: &RebaseWords,
    world: &mut W,
) -> Result<Text, RebaseFault>
    requires { KeepsLimits options.now }
    ensures steps { rebases_command options.now (seen W.World world.old) result (seen W.World world.new) }
    ensures stands { OnOk result (ImageStands options.now.store options.now.image (W.tree world.new)) }
{
    let image = rebase(alloc, world, &options.store, &options.image, &options.run)?;
    save_rebased(alloc, options, world, &image)
}
