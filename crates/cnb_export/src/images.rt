// The run image, and the layers of the previous image.
ghost use Rattle.std.specs.Prelude.{◌≤◌, IfOk, IsTrue, length};
ghost use Rattle.image_docs.specs.RunImage.{is_run_doc};
ghost use Rattle.steps.specs.Outside.{seen};
ghost use Rattle.cnb_export.specs.Images.{reads_layers, reads_previous, reads_run_image};

use cnb_layers::ExportFault;
use cnb_toml::ImageName;
use cnb_world::{List, Path, World};
use image_docs::{LayerRow, RunDoc};
use std::alloc::Global;

/// The run image of a name.
pub(crate) fn read_run_image<W: World>(
    alloc: Global,
    world: &mut W,
    store: &Path,
    name: &ImageName,
) -> Result<RunDoc, ExportFault>
    requires { length store.now ≤ 4096 }
    ensures step { reads_run_image store.now name.now (seen W.World world.old) result (seen W.World world.new) }
    ensures readable { IfOk result (λ run. IsTrue (is_run_doc run)) }
{
    let run = image_files::read_run_image(alloc, world, store, name)?;
    Ok(run)
}

fn read_layers<W: World>(
    alloc: Global,
    world: &mut W,
    store: &Path,
    name: &ImageName,
) -> Result<List<LayerRow>, ExportFault>
    requires { length store.now ≤ 4096 }
    ensures step { reads_layers store.now name.now (seen W.World world.old) result (seen W.World world.new) }
{
    let image = image_files::read_image(alloc, world, store, name)?;
    Ok(image.layers)
}

/// The layers of the previous image, where there is one, which must be there.
#[tactic(auto, unfolding(steps::specs::Steps::yields))]
pub(crate) fn read_previous<W: World>(
    alloc: Global,
    world: &mut W,
    store: &Path,
    name: &Option<ImageName>,
) -> Result<List<LayerRow>, ExportFault>
    requires { length store.now ≤ 4096 }
    ensures step { reads_previous store.now name.now (seen W.World world.old) result (seen W.World world.new) }
{
    match name {
        Some(name) => read_layers(alloc, world, store, name),
        None => Ok(List::new(alloc)),
    }
}
