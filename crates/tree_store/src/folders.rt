// Folders that go into the store, and stored trees that are checked and laid.
ghost use Rattle.std.specs.Prelude.{◌≡◌, ◌≤◌, OnOk, false, length};
ghost use Rattle.cnb_world.specs.Tree.{is_within};
ghost use Rattle.steps.specs.Outside.{seen};
ghost use Rattle.tree_store.specs.Digests.{HasTree};
ghost use Rattle.tree_store.specs.Steps.{checks_tree, lays_stored, puts_folder};
ghost use Rattle.tree_store.specs.Store.{tree_path};
ghost use Rattle.tree_store.specs.Writing.{AreApart, new_path};

use crate::checking::check_file;
use crate::fault::StoreFault;
use crate::kept_bytes::KeptBytes;
use crate::laying::write_tree;
use crate::laying_kept::{is_within, lay_kept};
use crate::naming::{cleared, put_or_clear};
use crate::origin::TreeFile;
use crate::putting::put_tree;
use crate::reading::read_tree;
use crate::store::{get, tree_file};
use crate::writing::{begin, new_file};
use cnb_world::{Path, World};
use std::alloc::Global;
use tree_canon::{Digest, encode};

// Puts the tree of a folder as it is read, which lies apart from what is written.
fn put_walked<W: World>(
    alloc: Global,
    world: &mut W,
    store: &Path,
    file: &Path,
    path: &Path,
) -> Result<Digest, StoreFault>
    requires store { length store.now ≤ 8192 }
    requires file { file.now ≡ new_path store.now }
    requires path { length path.now ≤ 8192 }
    requires apart { AreApart (new_path store.now) path.now }
    ensures steps { puts_folder store.now path.now (seen W.World world.old) result (seen W.World world.new) }
{
    let mut writer = begin(alloc, world, store)?;
    match put_tree(alloc, world, &mut writer, path) {
        Ok(len) => put_or_clear(alloc, world, store, file, writer, len),
        Err(fault) => Err(cleared(alloc, world, store, file, fault)),
    }
}

// Puts the tree of a folder, which is read before anything is written.
fn put_whole<W: World>(
    alloc: Global,
    world: &mut W,
    store: &Path,
    file: &Path,
    path: &Path,
) -> Result<Digest, StoreFault>
    requires store { length store.now ≤ 8192 }
    requires file { file.now ≡ new_path store.now }
    requires path { length path.now ≤ 8192 }
    ensures steps { puts_folder store.now path.now (seen W.World world.old) result (seen W.World world.new) }
{
    let tree = read_tree(alloc, world, path)?;
    let bytes = encode(alloc, &tree)?;
    let mut writer = begin(alloc, world, store)?;
    let len = bytes.as_slice().len() as u64;
    match writer.add_all(alloc, world, bytes.as_slice()) {
        Ok(()) => put_or_clear(alloc, world, store, file, writer, len),
        Err(fault) => Err(cleared(alloc, world, store, file, fault)),
    }
}

/// Puts the tree of a folder into the store, as `put` does. The folder is walked once: while it is read its bytes are
/// hashed and written, in pieces of at most 65,536 bytes, to the file `new` beside the trees' files, which then gets
/// the name of the digest. Where that is refused, that file is removed again. Nothing of the tree is kept but two pieces
/// and the names of the folders round the place that is read. Where the folder and that file lie in one another, the
/// tree is read whole and then written.
pub fn put_folder<W: World>(
    alloc: Global,
    world: &mut W,
    store: &Path,
    path: &Path,
) -> Result<Digest, StoreFault>
    requires store { length store.now ≤ 8192 }
    requires path { length path.now ≤ 8192 }
    ensures steps { puts_folder store.now path.now (seen W.World world.old) result (seen W.World world.new) }
{
    let file = new_file(alloc, store)?;
    if is_within(path.as_str(), file.as_str()) || is_within(file.as_str(), path.as_str()) {
        put_whole(alloc, world, store, &file, path)
    } else {
        put_walked(alloc, world, store, &file, path)
    }
}

/// Sees that the store has a tree under a digest, and refuses as `get` does. The file is read in pieces of 65,536
/// bytes, and nothing of the tree is kept but the names of the folders round the place that was read.
#[tactic(auto, using(crate::proofs::Checked::checked_so))]
pub fn check_tree<W: World>(
    alloc: Global,
    world: &mut W,
    store: &Path,
    digest: &Digest,
) -> Result<(), StoreFault>
    requires { length store.now ≤ 8192 }
    ensures steps { checks_tree store.now digest.now (seen W.World world.old) result (seen W.World world.new) }
    ensures digest { OnOk result (HasTree digest.now) }
{
    check_file(alloc, world, store, digest)
}

// Lays a stored tree as getting and then writing it do.
fn lay_whole<W: World>(
    alloc: Global,
    world: &mut W,
    store: &Path,
    digest: &Digest,
    root: &Path,
    place: &Path,
) -> Result<(), StoreFault>
    requires store { length store.now ≤ 8192 }
    requires root { length root.now ≤ 8192 }
    requires place { length place.now ≤ 8192 }
    ensures steps { lays_stored store.now digest.now root.now place.now
        (seen W.World world.old) result (seen W.World world.new) }
{
    let tree = get(alloc, world, store, digest)?;
    write_tree(alloc, world, root, place, &tree)?;
    Ok(())
}

// Lays the tree of a file that isn't at the root or below it: the file is judged, and then read again. The bytes of the second
// reading have to have the digest too.
fn lay_judged<W: World>(
    alloc: Global,
    world: &mut W,
    store: &Path,
    digest: &Digest,
    path: Path,
    root: &Path,
    place: &Path,
) -> Result<(), StoreFault>
    requires store { length store.now ≤ 8192 }
    requires path { path ≡ tree_path store.now digest.now }
    requires apart { is_within root.now path ≡ false }
    requires root { length root.now ≤ 8192 }
    requires place { length place.now ≤ 8192 }
    ensures steps { lays_stored store.now digest.now root.now place.now
        (seen W.World world.old) result (seen W.World world.new) }
{
    check_file(alloc, world, store, digest)?;
    let mut source = KeptBytes::new(alloc, TreeFile { path }, digest);
    lay_kept(alloc, world, &mut source, root, place)
}

/// Lays a stored tree at a place under a folder, by the rule of `write_tree`. The tree's file is read twice, in pieces
/// of 65,536 bytes: it is judged as `check_tree` does, and then each node is laid as its bytes come. These are hashed
/// again: where the file was changed between the readings, the call is refused as `Damaged`, and what was laid until
/// then is left below the root. Nothing of the tree is kept but two pieces and the names on the way. Where the file
/// stands at the root or below it, where laying could change it, the tree is got whole and then written.
pub fn lay_stored<W: World>(
    alloc: Global,
    world: &mut W,
    store: &Path,
    digest: &Digest,
    root: &Path,
    place: &Path,
) -> Result<(), StoreFault>
    requires store { length store.now ≤ 8192 }
    requires root { length root.now ≤ 8192 }
    requires place { length place.now ≤ 8192 }
    ensures steps { lays_stored store.now digest.now root.now place.now
        (seen W.World world.old) result (seen W.World world.new) }
{
    let path = tree_file(alloc, store, digest)?;
    if is_within(root.as_str(), path.as_str()) {
        lay_whole(alloc, world, store, digest, root, place)
    } else {
        lay_judged(alloc, world, store, digest, path, root, place)
    }
}
