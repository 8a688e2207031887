// The images of a store that are read.
ghost use Rattle.std.specs.Prelude.{◌≡◌, ◌≤◌, IfErr, IfOk, IsTrue, Some, length};
ghost use Rattle.steps.specs.Causes.{IsAnswer, IsGivenCause};
ghost use Rattle.steps.specs.Outside.{seen};
ghost use Rattle.image_docs.specs.Image.{image_table_in, is_image_doc};
ghost use Rattle.image_docs.specs.RunImage.{is_run_doc};
ghost use Rattle.image_files.specs.Documents.{IsRead};
ghost use Rattle.image_files.specs.Faults.{cause_of};
ghost use Rattle.image_files.specs.Images.{named, reads_image, reads_run_image};

use crate::documents::find_document;
use crate::fault::ImageFault;
use crate::paths::{image_path, run_path};
use cnb_toml::ImageName;
use cnb_world::{Path, World};
use image_docs::{ImageDoc, RunDoc};
use std::alloc::Global;

// An image that must be there.
fn named<T: Drop>(alloc: Global, name: &ImageName, found: Option<T>) -> Result<T, ImageFault>
    ensures answer { IsAnswer cause_of result (named name.now found) }
    ensures same { IfOk result (λ image. found ≡ Some image) }
    ensures cause { IfErr result (λ fault. IsGivenCause (cause_of fault)) }
{
    match found {
        Some(image) => Ok(image),
        None => Err(ImageFault::NoImage(name.copy(alloc)?)),
    }
}

/// The image of a name.
pub fn read_image<W: World>(
    alloc: Global,
    world: &mut W,
    store: &Path,
    name: &ImageName,
) -> Result<ImageDoc, ImageFault>
    requires { length store.now ≤ 4096 }
    ensures step { reads_image store.now name.now (seen W.World world.old) result (seen W.World world.new) }
    ensures read { IfOk result (IsRead image_table_in) }
    ensures readable { IfOk result (λ image. IsTrue (is_image_doc image)) }
{
    let path = image_path(alloc, store, name)?;
    let found = find_document::<W, ImageDoc>(alloc, world, &path)?;
    let image = named(alloc, name, found)?;
    Ok(image)
}

/// The run image of a name.
pub fn read_run_image<W: World>(
    alloc: Global,
    world: &mut W,
    store: &Path,
    name: &ImageName,
) -> Result<RunDoc, ImageFault>
    requires { length store.now ≤ 4096 }
    ensures step { reads_run_image store.now name.now (seen W.World world.old) result (seen W.World world.new) }
    ensures readable { IfOk result (λ image. IsTrue (is_run_doc image)) }
{
    let path = run_path(alloc, store, name)?;
    let found = find_document::<W, RunDoc>(alloc, world, &path)?;
    let image = named(alloc, name, found)?;
    Ok(image)
}
