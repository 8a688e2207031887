// What else a build left.
ghost use Rattle.std.specs.Prelude.{IfOk};
ghost use Rattle.cnb_env.specs.Layers.{AreShort};
ghost use Rattle.run_docs.specs.Launch.{launch_in};
ghost use Rattle.run_docs.specs.Store.{store_in};
ghost use Rattle.steps.specs.Outside.{seen};
ghost use Rattle.cnb_build.specs.Builds.{reads_left};
ghost use Rattle.cnb_build.specs.Places.{HasRoom};
ghost use Rattle.cnb_build.specs.Reading.{reads_as};

use crate::fault::BuildFault;
use crate::layers::read_layers;
use crate::places::Places;
use crate::reading::{read_document, value_at};
use cnb_env::LayerSet;
use cnb_world::{Path, World};
use doc_files::bytes_of;
use run_docs::{LaunchToml, StoreToml, read_launch, read_store};
use std::alloc::Global;

fn read_launch_toml<W: World>(
    alloc: Global,
    world: &mut W,
    path: &Path,
) -> Result<LaunchToml, BuildFault>
    ensures step { reads_as launch_in path.now (seen W.World world.old) result (seen W.World world.new) }
{
    let found = read_document(alloc, world, path)?;
    value_at(alloc, path, read_launch(alloc, bytes_of(&found)))
}

fn read_store_toml<W: World>(
    alloc: Global,
    world: &mut W,
    path: &Path,
) -> Result<StoreToml, BuildFault>
    ensures step { reads_as store_in path.now (seen W.World world.old) result (seen W.World world.new) }
{
    let found = read_document(alloc, world, path)?;
    value_at(alloc, path, read_store(alloc, bytes_of(&found)))
}

/// Reads `launch.toml` and `store.toml` for their faults, and then the layers' documents. It answers the folders of the
/// layers that are there while later buildpacks are built.
pub(crate) fn read_left<W: World>(
    alloc: Global,
    world: &mut W,
    places: &Places,
) -> Result<LayerSet, BuildFault>
    requires { HasRoom places.now }
    ensures step { reads_left places.now (seen W.World world.old) result (seen W.World world.new) }
    ensures short { IfOk result AreShort }
{
    let _launch = read_launch_toml(alloc, world, &places.launch)?;
    let _store = read_store_toml(alloc, world, &places.store)?;
    read_layers(alloc, world, &places.layers)
}
