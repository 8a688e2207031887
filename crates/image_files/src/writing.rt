// The images of a store that are written.
ghost use Rattle.std.specs.Prelude.{◌≤◌, IfOk, length};
ghost use Rattle.steps.specs.Outside.{seen};
ghost use Rattle.image_files.specs.Images.{ReadsAsImage, ReadsAsRunImage, writes_image, writes_run_image};

use crate::fault::ImageFault;
use crate::paths::{document_name, images_folder, runs_folder};
use cnb_toml::ImageName;
use cnb_world::{Bytes, Memory, Path, World};
use doc_files::write_document;
use image_docs::{ImageDoc, RunDoc, write_image, write_run};
use std::alloc::Global;

fn image_bytes(alloc: Global, image: &ImageDoc) -> Result<Bytes, Memory>
    ensures { IfOk result (ReadsAsImage image.now) }
{
    write_image(alloc, image)
}

fn run_image_bytes(alloc: Global, image: &RunDoc) -> Result<Bytes, Memory>
    ensures { IfOk result (ReadsAsRunImage image.now) }
{
    write_run(alloc, image)
}

/// Writes an image's document.
pub fn save_image<W: World>(
    alloc: Global,
    world: &mut W,
    store: &Path,
    name: &ImageName,
    image: &ImageDoc,
) -> Result<(), ImageFault>
    requires { length store.now ≤ 4096 }
    ensures step { writes_image store.now name.now image.now
        (seen W.World world.old) result (seen W.World world.new) }
{
    let bytes = image_bytes(alloc, image)?;
    let folder = images_folder(alloc, store)?;
    let document = document_name(alloc, name)?;
    write_document::<W, ImageFault>(alloc, world, &folder, document.as_str(), bytes.as_slice())?;
    Ok(())
}

/// Writes a run image's document.
pub fn save_run_image<W: World>(
    alloc: Global,
    world: &mut W,
    store: &Path,
    name: &ImageName,
    image: &RunDoc,
) -> Result<(), ImageFault>
    requires { length store.now ≤ 4096 }
    ensures step { writes_run_image store.now name.now image.now
        (seen W.World world.old) result (seen W.World world.new) }
{
    let bytes = run_image_bytes(alloc, image)?;
    let folder = runs_folder(alloc, store)?;
    let document = document_name(alloc, name)?;
    write_document::<W, ImageFault>(alloc, world, &folder, document.as_str(), bytes.as_slice())?;
    Ok(())
}
