// Storing trees on several shelves at once.
ghost use Rattle.std.specs.Prelude.{◌≡◌, ◌≤◌, length};
ghost use Rattle.std.specs.List.{AllByRecursion};
ghost use Rattle.steps.specs.Outside.{seen};
ghost use Rattle.shelf_set.specs.Caching.{IsShort};
ghost use Rattle.shelf_set.specs.ShelfState.{shelves_seen};
ghost use Rattle.shelf_set.specs.StoringEach.{HasNotFailed, PutsAll, PutsFolders};

use crate::turns::Shelves;
use cnb_world::{Path, Shelf, World};
use image_docs::LayerRow;
use std::alloc::Global;
use tree_store::{StoreFault, cache_folder, cache_rows};

// Walks one folder after another and puts its tree on the shelves, until one is refused.
fn put_folders<W: World>(
    alloc: Global,
    world: &mut W,
    shelves: &mut Shelves,
    failed: &mut Vec<bool>,
    layers: &[LayerRow],
    folders: &[Path],
) -> Result<(), StoreFault>
    requires numbered { length failed.old.items ≤ length shelves.old.items }
    requires none { AllByRecursion HasNotFailed failed.old.items }
    requires folders { length folders.now ≡ length layers.now }
    requires short { AllByRecursion IsShort folders.now }
    ensures { PutsFolders layers.now folders.now result failed.old.items failed.new.items
        (shelves_seen ⟦<dyn Shelf as Shelf>⟧ shelves.old.items) (shelves_seen ⟦<dyn Shelf as Shelf>⟧ shelves.new.items)
        (seen W.World world.old) (seen W.World world.new) }
{
    for (number, folder) in folders.iter().enumerate() {
        cache_folder(
            alloc,
            world,
            shelves,
            failed,
            &layers[number].digest,
            folder,
        )?;
    }
    Ok(())
}

/// Puts the tree of each folder on the first shelves, as many as `failed` has entries, and then the rows. A shelf that
/// fails is marked, and isn't asked again.
pub(crate) fn put_all<W: World>(
    alloc: Global,
    world: &mut W,
    shelves: &mut Shelves,
    failed: &mut Vec<bool>,
    layers: &[LayerRow],
    folders: &[Path],
    document: &[u8],
) -> Result<(), StoreFault>
    requires numbered { length failed.old.items ≤ length shelves.old.items }
    requires none { AllByRecursion HasNotFailed failed.old.items }
    requires folders { length folders.now ≡ length layers.now }
    requires short { AllByRecursion IsShort folders.now }
    ensures { PutsAll layers.now folders.now document.now result failed.old.items failed.new.items
        (shelves_seen ⟦<dyn Shelf as Shelf>⟧ shelves.old.items) (shelves_seen ⟦<dyn Shelf as Shelf>⟧ shelves.new.items)
        (seen W.World world.old) (seen W.World world.new) }
{
    put_folders(alloc, world, shelves, failed, layers, folders)?;
    cache_rows(shelves, failed, document)?;
    Ok(())
}
