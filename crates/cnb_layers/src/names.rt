// The names of the layers in a folder.
ghost use Rattle.steps.specs.Outside.{seen};
ghost use Rattle.cnb_layers.specs.Names.{lists, reads_layer_names, reads_names};

use crate::fault::ExportFault;
use crate::reading::kind_at;
use cnb_toml::LayerName;
use cnb_world::{Kind, List, Path, Text, World};
use doc_files::list_names;
use layer_paths::layers_among;
use std::alloc::Global;

fn list<W: World>(alloc: Global, world: &mut W, folder: &Path) -> Result<List<Text>, ExportFault>
    ensures step { lists folder.now (seen W.World world.old) result (seen W.World world.new) }
{
    let names = list_names(alloc, world, folder)?;
    Ok(names)
}

// The names in the folder, of which there are none where nothing stands.
fn read_names<W: World>(
    alloc: Global,
    world: &mut W,
    folder: &Path,
) -> Result<List<Text>, ExportFault>
    ensures step { reads_names folder.now (seen W.World world.old) result (seen W.World world.new) }
{
    let kind = kind_at(alloc, world, folder)?;
    match kind {
        Kind::Absent => Ok(List::new(alloc)),
        Kind::Folder | Kind::File { .. } | Kind::Link | Kind::Odd => list(alloc, world, folder),
    }
}

/// The names of the layers that have a document in the folder, ascending (buildpack.md, "Layer Types").
pub(crate) fn read_layer_names<W: World>(
    alloc: Global,
    world: &mut W,
    folder: &Path,
) -> Result<List<LayerName>, ExportFault>
    ensures step { reads_layer_names folder.now (seen W.World world.old) result (seen W.World world.new) }
{
    let names = read_names(alloc, world, folder)?;
    let layers = layers_among(alloc, &names)?;
    Ok(layers)
}
