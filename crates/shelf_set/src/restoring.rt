// Restoring a tree.
ghost use Rattle.std.specs.Prelude.{◌≡◌, ◌+◌, ◌≤◌, IfOk, drop, false, length, take};
ghost use Rattle.cnb_world.specs.Tree.{is_root};
ghost use Rattle.shelf_set.specs.Caches.{caches_of, world_and_caches};
ghost use Rattle.shelf_set.specs.Dropping.{AreStanding};
ghost use Rattle.shelf_set.specs.Laying.{LooksAt};
ghost use Rattle.shelf_set.specs.Restoring.{restores_tree};
ghost use Rattle.shelf_set.specs.ShelfState.{shelves_seen};
ghost use Rattle.steps.specs.Outside.{seen};

use crate::laying::blamed;
use crate::searching::{Searched, search};
use crate::turns::{Shelves, part_into};
use cnb_world::{FileFault, Kind, List, Path, Shelf, World};
use std::alloc::Global;
use std::mem;
use tree_canon::{Digest, Reason};
use tree_store::StoreFault;

/// What became of a tree: it was laid, no shelf holds it, or what one holds is damaged. Of the bytes `found` is the
/// digest, and where it is the one that was asked for, `bad` says why they spell no tree.
#[derive(Drop)]
pub enum Found {
    Laid,
    None,
    Damaged {
        asked: Digest,
        found: Digest,
        bad: Option<Reason>,
    },
}

/// What was found, and the numbers of the shelves that were dropped.
#[derive(Drop)]
pub struct Search {
    pub found: Found,
    pub gone: List<u32>,
}

// Whether nothing is at a path.
fn is_free<W: World>(alloc: Global, world: &mut W, path: &Path) -> Result<bool, StoreFault>
    ensures { LooksAt path.now (seen W.World world.old) result (seen W.World world.new) }
{
    match world.kind(path) {
        Ok(Kind::Absent) => Ok(true),
        Ok(Kind::File { exec: _, len: _ } | Kind::Folder | Kind::Link | Kind::Odd) => Ok(false),
        Err(FileFault::Failed) => Err(blamed(alloc, path)),
        Err(FileFault::Memory) => Err(StoreFault::Memory),
    }
}

/// Searches the shelves that stand, in order, for the tree of a digest, and lays it at a path, by the rule of
/// `write_tree`. `places` has their numbers, and the first shelves of the list, as many, are these. Each is asked at
/// most once, and none behind one that holds the digest: those are the very same afterwards, and none of them is dropped.
/// A tree is laid when its bytes were judged. Where nothing is at the path, they are read once more for it, in pieces
/// of 65,536 bytes, and nothing of the tree is kept but two pieces and the names on the way; a shelf that fails meanwhile
/// is dropped, and what was laid is removed again before the next one is asked. Where something is there, the tree is held
/// whole.
pub fn restore_tree<W: World>(
    alloc: Global,
    world: &mut W,
    shelves: &mut Shelves,
    places: &mut List<u32>,
    digest: &Digest,
    root: &Path,
) -> Result<Search, StoreFault>
    requires standing { AreStanding places.old (shelves_seen ⟦<dyn Shelf as Shelf>⟧ shelves.old.items) }
    requires root { length root.now ≤ 8192 }
    requires plain { is_root root.now ≡ false }
    ensures step { restores_tree digest.now root.now
        (world_and_caches (seen W.World world.old)
        (caches_of (shelves_seen ⟦<dyn Shelf as Shelf>⟧ shelves.old.items) places.old)) result
        (world_and_caches (seen W.World world.new)
        (caches_of (shelves_seen ⟦<dyn Shelf as Shelf>⟧ shelves.new.items) places.new)) }
    ensures count { IfOk result (λ search. length search.gone + length places.new ≡ length places.old) }
    ensures again { AreStanding places.new (shelves_seen ⟦<dyn Shelf as Shelf>⟧ shelves.new.items) }
{
    let spare = places.as_slice().to_vec(alloc)?;
    let free = is_free(alloc, world, root)?;
    let mut numbers = mem::replace(places, List::new(alloc)).into_vec();
    let Searched { found, standing } = search(
        alloc,
        world,
        shelves,
        &mut numbers,
        digest,
        root,
        free,
    );
    let gone = part_into(places, numbers, standing, spare);
    Ok(Search {
        found: found?,
        gone,
    })
}
