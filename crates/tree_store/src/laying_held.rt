// Laying a tree that a cache holds.
ghost use Rattle.std.specs.Prelude.{◌≡◌, ◌<◌, ◌≤◌, IfOk, OnOk, codes, false, length, true};
ghost use Rattle.cnb_world.specs.Tree.{is_root, is_within};
ghost use Rattle.steps.specs.Outside.{seen};
ghost use Rattle.tree_canon.specs.Fits.{fits};
ghost use Rattle.tree_canon.specs.Spelling.{node_bytes};
ghost use Rattle.tree_canon.specs.declared.node.Node.{Node};
ghost use Rattle.tree_store.specs.Ahead.{Ahead, LaysTree};
ghost use Rattle.tree_store.specs.Held.{LaysHeld, held_answer};
ghost use Rattle.tree_store.specs.Origin.{Leaves};
ghost use Rattle.tree_store.specs.Overlay.{tree_laid};
ghost use Rattle.tree_store.specs.Partly.{LaidPartly, items_placed};
ghost use Rattle.tree_store.specs.ShelfState.{Replaces, ShelfState, shelves_seen};
ghost use Rattle.tree_store.specs.Source.{source_seen};
ghost use Rattle.tree_store.specs.Taking.{LaysTaken};

use crate::fault::StoreFault;
use crate::held_tree::HeldTree;
use crate::kept_bytes::KeptBytes;
use crate::laying_kept::lay_kept;
use crate::origin::Origin;
use cnb_world::{Memory, Path, PathFault, Shelf, World};
use std::alloc::Global;
use std::mem;
use tree_canon::Digest;

/// Why a tree that a cache holds was not laid: the cache failed, or what laying a stored tree can be refused for.
#[derive(Drop)]
pub enum HeldFault {
    Shelf,
    Store(StoreFault),
}

// The place of the folder itself.
fn own_place(alloc: Global) -> Result<Path, Memory>
    ensures { IfOk result (λ path. path ≡ codes "/") }
{
    match Path::parse(alloc, "/") {
        Ok(path) => Ok(path),
        Err(PathFault::Memory) => Err(Memory),
        Err(PathFault::NotPath) => unreachable!(),
    }
}

// Lays the tree whose bytes lie ahead at a path.
fn lay_at<W: World, O: Origin>(
    alloc: Global,
    world: &mut W,
    source: &mut KeptBytes<O>,
    root: &Path,
) -> Result<(), StoreFault>
    requires apart { is_within root.now (O.state source.old.origin).path ≡ false }
    requires root { length root.now ≤ 8192 }
    ensures leaves { Leaves root.now (O.state source.old.origin) (seen W.World world.old)
        result (O.state source.new.origin) (seen W.World world.new) }
    ensures lays { (tree : Node) → fits tree 0 ≡ true
        → Ahead (source_seen O.state source.old) (W.tree world.old) (node_bytes tree)
        → LaysTree root.now (codes "/") tree (seen W.World world.old) result (seen W.World world.new) }
    ensures partly { (tree : Node) → fits tree 0 ≡ true
        → Ahead (source_seen O.state source.old) (W.tree world.old) (node_bytes tree)
        → LaidPartly root.now (items_placed root.now (codes "/") tree) (W.tree world.old) (W.tree world.new) }
    ensures laid { OnOk result (LaysTaken (tree_laid root.now (codes "/")) (source_seen O.state source.old)
        (W.tree world.old) (W.tree world.new)) }
{
    let place = own_place(alloc)?;
    lay_kept(alloc, world, source, root, &place)
}

// What a call answers, by whether the cache failed.
fn held_answer(laid: Result<(), StoreFault>, failed: bool) -> Result<(), HeldFault>
    ensures { result ≡ held_answer failed laid }
{
    match laid {
        Ok(()) => Ok(()),
        Err(fault) => {
            if failed {
                Err(HeldFault::Shelf)
            } else {
                Err(HeldFault::Store(fault))
            }
        }
    }
}

/// Lays the tree that a cache holds under a digest at a path, by the rule of `write_tree`. The cache is the one at this
/// place in the list, and its bytes were judged before. They are read again in pieces of 65,536 bytes, and each node is
/// laid as its bytes come. These are hashed: where they were changed since, the call is refused as `Damaged`, and what
/// was laid until then is left. Nothing of the tree is kept but two pieces and the names on the way. A cache that fails
/// is told as `Shelf`, and is not asked again.
pub fn lay_held<W: World>(
    alloc: Global,
    world: &mut W,
    shelves: &mut Vec<Box<dyn Shelf>>,
    at: usize,
    digest: &Digest,
    root: &Path,
) -> Result<(), HeldFault>
    requires within { at < length shelves.old.items }
    requires root { length root.now ≤ 8192 }
    requires plain { is_root root.now ≡ false }
    ensures lays { (before : ShelfState) × (after : ShelfState)
        × Replaces (shelves_seen ⟦<dyn Shelf as Shelf>⟧ shelves.old.items) at before after
        (shelves_seen ⟦<dyn Shelf as Shelf>⟧ shelves.new.items)
        × LaysHeld root.now digest.now before (seen W.World world.old) result after (seen W.World world.new) }
{
    // The proof takes from this call what each path keeps to.
    let _root = root.as_str();
    let held = HeldTree {
        shelves: mem::replace(shelves, Vec::new(alloc)),
        number: at,
        failed: false,
    };
    let mut source = KeptBytes::new(alloc, held, digest);
    let laid = lay_at(alloc, world, &mut source, root);
    let HeldTree {
        shelves: list,
        number: _,
        failed,
    } = source.into_origin();
    *shelves = list;
    held_answer(laid, failed)
}
