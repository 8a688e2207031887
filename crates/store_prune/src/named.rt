// What the documents of a store name.
ghost use Rattle.std.specs.Prelude.{◌≤◌, length};
ghost use Rattle.steps.specs.Outside.{seen};
ghost use Rattle.store_prune.specs.Named.{reads_named};

use crate::documents::add_folder;
use crate::fault::PruneFault;
use cnb_world::{List, Path, World};
use image_docs::{ImageDoc, RunDoc};
use image_files::{images_folder, runs_folder};
use std::alloc::Global;
use tree_canon::Digest;

/// The digests that the images of a store name, and then its run images.
pub(crate) fn read_named<W: World>(
    alloc: Global,
    world: &mut W,
    store: &Path,
) -> Result<List<Digest>, PruneFault>
    requires { length store.now ≤ 4096 }
    ensures steps { reads_named store.now (seen W.World world.old) result (seen W.World world.new) }
{
    let images = images_folder(alloc, store)?;
    let runs = runs_folder(alloc, store)?;
    let named = List::new(alloc);
    let named = add_folder::<W, ImageDoc>(alloc, world, &images, named)?;
    add_folder::<W, RunDoc>(alloc, world, &runs, named)
}
