// A shelf's turn: it is asked for a tree, which is laid where it has it.
ghost use Rattle.std.specs.Prelude.{◌≡◌, ◌<◌, ◌≤◌, IfOk, Err, Some, None, codes, false, true, length};
ghost use Rattle.cnb_world.specs.Tree.{is_root};
ghost use Rattle.shelf_set.specs.Laying.{Clears, LaysChecked, TakesAt, WritesWhole, damage_of, refused_as, tree_of};
ghost use Rattle.shelf_set.specs.ShelfState.{shelves_seen};
ghost use Rattle.shelf_set.specs.Turns.{is_failed};
ghost use Rattle.steps.specs.Outside.{seen};
ghost use Rattle.tree_store.specs.Answers.{Blames};
ghost use Rattle.cnb_world.specs.declared.world.FileFault.TheVariants as file_fault;

use crate::ask::{Checked, ask_at, check_at};
use crate::restoring::Found;
use crate::turns::Shelves;
use cnb_world::{FileFault, Memory, Path, PathFault, Shelf, ShelfFault, World};
use std::alloc::Global;
use tree_canon::{Digest, Judged, Tree};
use tree_store::{HeldFault, StoreFault, lay_held, write_tree};

/// What came of a shelf's turn: whether the shelf failed, and what ends the search.
pub(crate) struct Turned {
    pub(crate) failed: bool,
    pub(crate) end: Option<Result<Found, StoreFault>>,
}

fn root_path(alloc: Global) -> Result<Path, Memory>
    ensures { IfOk result (λ path. path ≡ codes "/") }
{
    match Path::parse(alloc, "/") {
        Ok(path) => Ok(path),
        Err(PathFault::Memory) => Err(Memory),
        Err(PathFault::NotPath) => unreachable!(),
    }
}

fn write_whole<W: World>(
    alloc: Global,
    world: &mut W,
    root: &Path,
    tree: &Tree,
) -> Result<Found, StoreFault>
    requires { length root.now ≤ 8192 }
    ensures { WritesWhole root.now tree.now (seen W.World world.old) result (seen W.World world.new) }
{
    let place = root_path(alloc)?;
    write_tree(alloc, world, root, &place, tree)?;
    Ok(Found::Laid)
}

// The shelf has nothing, or failed.
fn passes(failed: bool) -> Turned
    ensures failed { result.failed ≡ failed }
    ensures end { result.end ≡ None }
{
    Turned { failed, end: None }
}

fn ends(end: Result<Found, StoreFault>) -> Turned
    ensures failed { result.failed ≡ false }
    ensures end { result.end ≡ Some end }
{
    Turned {
        failed: false,
        end: Some(end),
    }
}

/// The refusal of a failed call on a path.
pub(crate) fn blamed(alloc: Global, path: &Path) -> StoreFault
    ensures { Blames path.now file_fault.Failed result }
{
    match path.copy(alloc) {
        Ok(path) => StoreFault::File(path),
        Err(Memory) => StoreFault::Memory,
    }
}

// A tree that was judged, or that its bytes are damaged.
fn tree_of(judged: Judged) -> Result<Tree, Found>
    ensures { result ≡ tree_of judged }
{
    match judged {
        Judged::Tree(tree) => Ok(tree),
        Judged::Damaged { asked, found, bad } => Err(Found::Damaged { asked, found, bad }),
    }
}

// Asks the shelf, holds the tree whole, and writes it over what is at the path.
fn lay_whole<W: World>(
    alloc: Global,
    world: &mut W,
    shelves: &mut Shelves,
    at: usize,
    digest: &Digest,
    root: &Path,
) -> Turned
    requires within { at < length shelves.old.items }
    requires root { length root.now ≤ 8192 }
    ensures { TakesAt false digest.now root.now (shelves_seen ⟦<dyn Shelf as Shelf>⟧ shelves.old.items) at
        result.failed result.end (shelves_seen ⟦<dyn Shelf as Shelf>⟧ shelves.new.items)
        (seen W.World world.old) (seen W.World world.new) }
{
    match ask_at(alloc, shelves, at, digest) {
        Ok(None) => passes(false),
        Ok(Some(judged)) => match tree_of(judged) {
            Ok(tree) => ends(write_whole(alloc, world, root, &tree)),
            Err(damaged) => ends(Ok(damaged)),
        },
        Err(ShelfFault::Failed) => passes(true),
        Err(ShelfFault::Memory) => ends(Err(StoreFault::Memory)),
    }
}

// What a refused laying comes to: bytes that changed since they were judged are damaged.
fn refused(fault: StoreFault) -> Result<Found, StoreFault>
    ensures { result ≡ refused_as fault }
{
    match fault {
        StoreFault::File(path) => Err(StoreFault::File(path)),
        StoreFault::Damaged { asked, found, bad } => Ok(Found::Damaged { asked, found, bad }),
        StoreFault::OddFile(_)
        | StoreFault::Limit(_)
        | StoreFault::NoTree(_)
        | StoreFault::Clash { digest: _ }
        | StoreFault::Memory => Err(StoreFault::Memory),
    }
}

// Removes what a shelf that failed has left of a tree.
fn clear<W: World>(alloc: Global, world: &mut W, root: &Path) -> Turned
    requires { is_root root.now ≡ false }
    ensures failed { result.failed ≡ true }
    ensures clears { Clears root.now result.end (seen W.World world.old) (seen W.World world.new) }
{
    match world.remove(root) {
        Ok(()) => passes(true),
        Err(FileFault::Failed) => Turned {
            failed: true,
            end: Some(Err(blamed(alloc, root))),
        },
        Err(FileFault::Memory) => Turned {
            failed: true,
            end: Some(Err(StoreFault::Memory)),
        },
    }
}

// Why bytes that were checked are no tree.
fn damage_of(checked: Checked) -> Option<Found>
    ensures { result ≡ damage_of checked }
{
    match checked {
        Checked::Tree => None,
        Checked::Damaged { asked, found, bad } => Some(Found::Damaged { asked, found, bad }),
    }
}

// Lays the tree that a shelf holds, which was judged.
fn lay_checked<W: World>(
    alloc: Global,
    world: &mut W,
    shelves: &mut Shelves,
    at: usize,
    digest: &Digest,
    root: &Path,
) -> Turned
    requires within { at < length shelves.old.items }
    requires root { length root.now ≤ 8192 }
    requires plain { is_root root.now ≡ false }
    ensures { LaysChecked digest.now root.now (shelves_seen ⟦<dyn Shelf as Shelf>⟧ shelves.old.items) at
        result.failed result.end (shelves_seen ⟦<dyn Shelf as Shelf>⟧ shelves.new.items)
        (seen W.World world.old) (seen W.World world.new) }
{
    // The proof takes from this call what each path keeps to.
    let _root = root.as_str();
    match lay_held(alloc, world, shelves, at, digest, root) {
        Ok(()) => ends(Ok(Found::Laid)),
        Err(HeldFault::Shelf) => clear(alloc, world, root),
        Err(HeldFault::Store(fault)) => ends(refused(fault)),
    }
}

// Asks the shelf, and lays the tree in pieces, where nothing is at the path. Where the shelf fails meanwhile, nothing is
// there again.
fn lay_pieces<W: World>(
    alloc: Global,
    world: &mut W,
    shelves: &mut Shelves,
    at: usize,
    digest: &Digest,
    root: &Path,
) -> Turned
    requires within { at < length shelves.old.items }
    requires root { length root.now ≤ 8192 }
    requires plain { is_root root.now ≡ false }
    ensures { TakesAt true digest.now root.now (shelves_seen ⟦<dyn Shelf as Shelf>⟧ shelves.old.items) at
        result.failed result.end (shelves_seen ⟦<dyn Shelf as Shelf>⟧ shelves.new.items)
        (seen W.World world.old) (seen W.World world.new) }
{
    match check_at(alloc, shelves, at, digest) {
        Ok(None) => passes(false),
        Ok(Some(checked)) => match damage_of(checked) {
            None => lay_checked(alloc, world, shelves, at, digest, root),
            Some(damaged) => ends(Ok(damaged)),
        },
        Err(ShelfFault::Failed) => passes(true),
        Err(ShelfFault::Memory) => ends(Err(StoreFault::Memory)),
    }
}

/// The shelf at a place is asked for a tree, which is laid at a path where it has it. A path where nothing is, is free.
pub(crate) fn lay_at<W: World>(
    alloc: Global,
    world: &mut W,
    shelves: &mut Shelves,
    at: usize,
    digest: &Digest,
    root: &Path,
    free: bool,
) -> Turned
    requires within { at < length shelves.old.items }
    requires root { length root.now ≤ 8192 }
    requires plain { is_root root.now ≡ false }
    ensures { TakesAt free digest.now root.now (shelves_seen ⟦<dyn Shelf as Shelf>⟧ shelves.old.items) at
        result.failed result.end (shelves_seen ⟦<dyn Shelf as Shelf>⟧ shelves.new.items)
        (seen W.World world.old) (seen W.World world.new) }
{
    if free {
        lay_pieces(alloc, world, shelves, at, digest, root)
    } else {
        lay_whole(alloc, world, shelves, at, digest, root)
    }
}
