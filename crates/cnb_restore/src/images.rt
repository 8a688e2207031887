// The images that a command names.
ghost use Rattle.std.specs.Prelude.{◌≡◌, ◌≤◌, IfErr, IfOk, IsTrue, Some, length};
ghost use Rattle.std.specs.Option.{option_copied};
ghost use Rattle.steps.specs.Causes.{IsAnswer, IsGivenCause, Only};
ghost use Rattle.steps.specs.Outside.{seen};
ghost use Rattle.steps.specs.Steps.{reads};
ghost use Rattle.image_docs.specs.RunImage.{is_run_doc};
ghost use Rattle.cnb_restore.specs.Analyzes.{OnlyImage, is_fit_image, known_in, name_of, named, previous_in};
ghost use Rattle.cnb_restore.specs.Analyzes.{run_image_in, some_named};
ghost use Rattle.image_files.specs.Documents.{is_fit_document};
ghost use Rattle.cnb_restore.specs.Faults.{cause_of};
ghost use Rattle.image_files.specs.Paths.{run_path};

use crate::fault::RestoreFault;
use cnb_toml::ImageName;
use cnb_world::{Path, World};
use image_docs::{ImageDoc, RunDoc};
use image_files::{find_document, image_path, run_path};
use std::alloc::Global;

// An image that must be there.
fn named<T: Drop>(alloc: Global, name: &ImageName, found: Option<T>) -> Result<T, RestoreFault>
    ensures answer { IsAnswer cause_of result (named name.now found) }
    ensures same { IfOk result (λ image. found ≡ Some image) }
    ensures cause { IfErr result (λ fault. IsGivenCause (cause_of fault)) }
{
    match found {
        Some(image) => Ok(image),
        None => Err(RestoreFault::NoImage(name.copy(alloc)?)),
    }
}

fn some_named(
    alloc: Global,
    name: &ImageName,
    found: Option<ImageDoc>,
) -> Result<Option<ImageDoc>, RestoreFault>
    ensures answer { IsAnswer cause_of result (some_named name.now found) }
    ensures cause { IfErr result (λ fault. IsGivenCause (cause_of fault)) }
{
    match found {
        Some(image) => Ok(Some(image)),
        None => Err(RestoreFault::NoImage(name.copy(alloc)?)),
    }
}

// The name of an image, where that is there.
fn name_of<T: Drop>(
    alloc: Global,
    name: &ImageName,
    found: Option<T>,
) -> Result<Option<ImageName>, RestoreFault>
    ensures answer { IsAnswer cause_of result (name_of name.now found) }
    ensures cause { IfErr result (λ fault. IsGivenCause (cause_of fault)) }
{
    match found {
        Some(_) => Ok(Some(name.copy(alloc)?)),
        None => Ok(None),
    }
}

/// The run image of a name.
pub(crate) fn read_run_image<W: World>(
    alloc: Global,
    world: &mut W,
    store: &Path,
    name: &ImageName,
) -> Result<RunDoc, RestoreFault>
    requires { length store.now ≤ 4096 }
    ensures step { reads cause_of (Only (run_path store.now name.now))
        (is_fit_document (run_path store.now name.now)) (run_image_in store.now name.now)
        (seen W.World world.old) result (seen W.World world.new) }
    ensures readable { IfOk result (λ image. IsTrue (is_run_doc image)) }
{
    let path = run_path(alloc, store, name)?;
    let found = find_document::<W, RunDoc>(alloc, world, &path)?;
    named(alloc, name, found)
}

// The name of the previous image, where that is there.
fn read_known<W: World>(
    alloc: Global,
    world: &mut W,
    store: &Path,
    name: &ImageName,
) -> Result<Option<ImageName>, RestoreFault>
    requires { length store.now ≤ 4096 }
    ensures step { reads cause_of (OnlyImage store.now (Some name.now))
        (is_fit_image store.now (Some name.now)) (known_in store.now (Some name.now))
        (seen W.World world.old) result (seen W.World world.new) }
{
    let path = image_path(alloc, store, name)?;
    let found = find_document::<W, ImageDoc>(alloc, world, &path)?;
    name_of(alloc, name, found)
}

fn read_image<W: World>(
    alloc: Global,
    world: &mut W,
    store: &Path,
    name: &ImageName,
) -> Result<Option<ImageDoc>, RestoreFault>
    requires { length store.now ≤ 4096 }
    ensures step { reads cause_of (OnlyImage store.now (Some name.now))
        (is_fit_image store.now (Some name.now)) (previous_in store.now (Some name.now))
        (seen W.World world.old) result (seen W.World world.new) }
{
    let path = image_path(alloc, store, name)?;
    let found = find_document::<W, ImageDoc>(alloc, world, &path)?;
    some_named(alloc, name, found)
}

/// The name of the previous image, where there is one and that is there.
#[tactic(auto, unfolding(steps::specs::Steps::reads), using(crate::proofs::ReadLemmas::read_nothing))]
pub(crate) fn known_previous<W: World>(
    alloc: Global,
    world: &mut W,
    store: &Path,
    name: Option<&ImageName>,
) -> Result<Option<ImageName>, RestoreFault>
    requires { length store.now ≤ 4096 }
    ensures step { reads cause_of (OnlyImage store.now (option_copied name.entry))
        (is_fit_image store.now (option_copied name.entry)) (known_in store.now (option_copied name.entry)) (seen W.World world.old) result (seen W.World world.new) }
{
    match name {
        Some(name) => read_known(alloc, world, store, name),
        None => Ok(None),
    }
}

/// The previous image, where there is one, which must be there.
#[tactic(auto, unfolding(steps::specs::Steps::reads), using(crate::proofs::ReadLemmas::read_nothing))]
pub(crate) fn read_previous<W: World>(
    alloc: Global,
    world: &mut W,
    store: &Path,
    name: Option<&ImageName>,
) -> Result<Option<ImageDoc>, RestoreFault>
    requires { length store.now ≤ 4096 }
    ensures step { reads cause_of (OnlyImage store.now (option_copied name.entry))
        (is_fit_image store.now (option_copied name.entry)) (previous_in store.now (option_copied name.entry)) (seen W.World world.old) result (seen W.World world.new) }
{
    match name {
        Some(name) => read_image(alloc, world, store, name),
        None => Ok(None),
    }
}
