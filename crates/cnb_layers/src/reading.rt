// Reading documents.
ghost use Rattle.std.specs.Prelude.{IfErr};
ghost use Rattle.run_docs.specs.Launch.{launch_in};
ghost use Rattle.run_docs.specs.Store.{store_in};
ghost use Rattle.steps.specs.Causes.{IsAnswer, IsGivenCause};
ghost use Rattle.steps.specs.Outside.{seen};
ghost use Rattle.cnb_layers.specs.Reading.{reads_as, reads_document, reads_kind, reads_some, some_value_at, value_at};
ghost use Rattle.cnb_layers.specs.Refusals.{cause_of};

use crate::fault::ExportFault;
use cnb_toml::DocFault;
use cnb_world::{Bytes, Kind, Path, World};
use doc_files::{blamed, bytes_of};
use run_docs::{LaunchToml, StoreToml, read_launch, read_store};
use std::alloc::Global;

/// What stands at a path.
#[tactic(auto, unfolding(steps::specs::Steps::reads), using(steps::proofs::StepLemmas::allowed_by, crate::proofs::ReadSteps::blamed_so, crate::proofs::ReadSteps::counted_so, crate::proofs::ReadSteps::named_so))]
pub(crate) fn kind_at<W: World>(
    alloc: Global,
    world: &mut W,
    path: &Path,
) -> Result<Kind, ExportFault>
    ensures step { reads_kind path.now (seen W.World world.old) result (seen W.World world.new) }
{
    match world.kind(path) {
        Ok(kind) => Ok(kind),
        Err(fault) => Err(ExportFault::from(blamed(alloc, path, fault))),
    }
}

/// The bytes of the document at a path, where one is there.
pub fn read_document<W: World>(
    alloc: Global,
    world: &mut W,
    path: &Path,
) -> Result<Option<Bytes>, ExportFault>
    ensures step { reads_document path.now (seen W.World world.old) result (seen W.World world.new) }
{
    let found = doc_files::read_document(alloc, world, path)?;
    Ok(found)
}

/// What the reader of a document answered, for the document at a path.
pub fn value_at<T: Drop>(
    alloc: Global,
    path: &Path,
    answer: Result<T, DocFault>,
) -> Result<T, ExportFault>
    ensures answer { IsAnswer cause_of result (value_at path.now answer) }
    ensures cause { IfErr result (λ fault. IsGivenCause (cause_of fault)) }
{
    let value = doc_files::read_at(alloc, path, answer)?;
    Ok(value)
}

/// Reads `launch.toml`. One that isn't there is empty.
pub(crate) fn read_launch_toml<W: World>(
    alloc: Global,
    world: &mut W,
    path: &Path,
) -> Result<LaunchToml, ExportFault>
    ensures step { reads_as launch_in path.now (seen W.World world.old) result (seen W.World world.new) }
{
    let found = read_document(alloc, world, path)?;
    value_at(alloc, path, read_launch(alloc, bytes_of(&found)))
}

fn store_value(
    alloc: Global,
    path: &Path,
    found: Option<Bytes>,
) -> Result<Option<StoreToml>, ExportFault>
    ensures answer { IsAnswer cause_of result (some_value_at store_in path.now found) }
    ensures cause { IfErr result (λ fault. IsGivenCause (cause_of fault)) }
{
    match found {
        Some(bytes) => {
            let store = value_at(alloc, path, read_store(alloc, bytes.as_slice()))?;
            Ok(Some(store))
        }
        None => Ok(None),
    }
}

/// Reads `store.toml`, where it is there.
pub(crate) fn read_store_toml<W: World>(
    alloc: Global,
    world: &mut W,
    path: &Path,
) -> Result<Option<StoreToml>, ExportFault>
    ensures step { reads_some store_in path.now (seen W.World world.old) result (seen W.World world.new) }
{
    let found = read_document(alloc, world, path)?;
    store_value(alloc, path, found)
}
