// Searching the shelves that stand for a tree.
ghost use Rattle.std.specs.Prelude.{◌≡◌, ◌<◌, ◌≤◌, false, length};
ghost use Rattle.cnb_world.specs.Tree.{is_root};
ghost use Rattle.shelf_set.specs.Dropping.{AreStanding};
ghost use Rattle.shelf_set.specs.Laying.{SearchesTree, TakesTree};
ghost use Rattle.shelf_set.specs.ShelfState.{shelves_seen};
ghost use Rattle.steps.specs.Outside.{seen};

use crate::laying::{Turned, lay_at};
use crate::restoring::Found;
use crate::turns::{Shelves, settle};
use cnb_world::{Path, Shelf, World};
use std::alloc::Global;
use tree_canon::Digest;
use tree_store::StoreFault;

fn take_turn<W: World>(
    alloc: Global,
    world: &mut W,
    shelves: &mut Shelves,
    numbers: &mut Vec<u32>,
    at: &mut usize,
    digest: &Digest,
    root: &Path,
    free: bool,
) -> Option<Result<Found, StoreFault>>
    requires within { at.old < length shelves.old.items }
    requires numbered { at.old < length numbers.old.items }
    requires root { length root.now ≤ 8192 }
    requires plain { is_root root.now ≡ false }
    ensures { TakesTree free digest.now root.now
        (shelves_seen ⟦<dyn Shelf as Shelf>⟧ shelves.old.items) numbers.old.items at.old result
        (shelves_seen ⟦<dyn Shelf as Shelf>⟧ shelves.new.items) numbers.new.items at.new
        (seen W.World world.old) (seen W.World world.new) }
{
    let Turned { failed, end } = lay_at(alloc, world, shelves, *at, digest, root, free);
    settle(shelves, numbers, at, failed);
    end
}

/// What came of a search, and how many shelves stand.
pub(crate) struct Searched {
    pub(crate) found: Result<Found, StoreFault>,
    pub(crate) standing: usize,
}

/// Asks one shelf after another, until one has the tree, which is laid at a path, or the search is refused.
pub(crate) fn search<W: World>(
    alloc: Global,
    world: &mut W,
    shelves: &mut Shelves,
    numbers: &mut Vec<u32>,
    digest: &Digest,
    root: &Path,
    free: bool,
) -> Searched
    requires standing { AreStanding numbers.old.items (shelves_seen ⟦<dyn Shelf as Shelf>⟧ shelves.old.items) }
    requires root { length root.now ≤ 8192 }
    requires plain { is_root root.now ≡ false }
    ensures { SearchesTree free digest.now root.now
        (shelves_seen ⟦<dyn Shelf as Shelf>⟧ shelves.old.items) numbers.old.items result.found
        (shelves_seen ⟦<dyn Shelf as Shelf>⟧ shelves.new.items) numbers.new.items result.standing
        (seen W.World world.old) (seen W.World world.new) }
{
    let count = numbers.len();
    let mut at = 0usize;
    for asked in 0..count {
        if let Some(found) = take_turn(
            alloc, world, shelves, numbers, &mut at, digest, root, free,
        ) {
            return Searched {
                found,
                standing: at + (count - asked - 1),
            };
        }
    }
    Searched {
        found: Ok(Found::None),
        standing: at,
    }
}
