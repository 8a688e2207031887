// Storing the layers that a cache keeps.
ghost use Rattle.std.specs.Prelude.{◌≡◌, length};
ghost use Rattle.std.specs.List.{AllByRecursion};
ghost use Rattle.image_docs.specs.CacheRows.{is_cache_doc};
ghost use Rattle.shelf_set.specs.Caches.{caches_of, world_and_caches};
ghost use Rattle.shelf_set.specs.Caching.{IsShort, stores_folders};
ghost use Rattle.shelf_set.specs.Dropping.{AreStanding};
ghost use Rattle.shelf_set.specs.ShelfState.{shelves_seen};
ghost use Rattle.steps.specs.Outside.{seen};

use crate::storing::put_all;
use crate::turns::{Shelves, drop_failed};
use cnb_world::{List, Path, Shelf, World};
use image_docs::{CacheDoc, write_cache};
use std::alloc::Global;
use tree_store::StoreFault;

/// Puts the contents of the layers that a cache keeps on each shelf that stands, and then their rows. `folders` has the
/// folders of the layers, in their order, and each is walked once for all shelves, as `cache_folder` does: one whose tree
/// has another digest than its row is refused as `OddFile`. Returns the numbers of the shelves that were dropped. Where
/// it is refused, some shelves may have been changed.
pub fn store_all<W: World>(
    alloc: Global,
    world: &mut W,
    shelves: &mut Shelves,
    places: &mut List<u32>,
    layers: &CacheDoc,
    folders: &List<Path>,
) -> Result<List<u32>, StoreFault>
    requires standing { AreStanding places.old (shelves_seen ⟦<dyn Shelf as Shelf>⟧ shelves.old.items) }
    requires folders { length folders.now ≡ length layers.now }
    requires short { AllByRecursion IsShort folders.now }
    ensures stores { stores_folders (is_cache_doc layers.now) layers.now folders.now
        (world_and_caches (seen W.World world.old)
        (caches_of (shelves_seen ⟦<dyn Shelf as Shelf>⟧ shelves.old.items) places.old)) result
        (world_and_caches (seen W.World world.new)
        (caches_of (shelves_seen ⟦<dyn Shelf as Shelf>⟧ shelves.new.items) places.new)) }
    ensures again { AreStanding places.new (shelves_seen ⟦<dyn Shelf as Shelf>⟧ shelves.new.items) }
{
    let document = write_cache(alloc, layers)?;
    let spare = places.as_slice().to_vec(alloc)?;
    let mut failed = vec![in alloc; false; spare.len()]?;
    let stored = put_all(
        alloc,
        world,
        shelves,
        &mut failed,
        layers.as_slice(),
        folders.as_slice(),
        document.as_slice(),
    );
    let gone = drop_failed(alloc, shelves, places, &failed, spare);
    stored?;
    Ok(gone)
}
