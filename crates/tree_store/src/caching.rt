// Putting the tree of a folder on several shelves at once.
ghost use Rattle.std.specs.Prelude.{◌≡◌, ◌≤◌, [], false, length};
ghost use Rattle.std.specs.Str.{bytes_eq};
ghost use Rattle.cnb_world.specs.Tree.{is_root};
ghost use Rattle.steps.specs.Outside.{seen};
ghost use Rattle.tree_store.specs.Caching.{CachesFolder, CachesRows, digests_folder};
ghost use Rattle.tree_store.specs.Giving.{GivesFolder, KeepsFound, WalksFolder};
ghost use Rattle.tree_store.specs.ShelfState.{shelves_seen};
ghost use Rattle.tree_store.specs.Target.{HaveBegun, receivers_seen};
ghost use Rattle.tree_store.specs.Writing.{writer_seen};

use crate::fault::{StoreFault, odd};
use crate::putting::put_tree;
use crate::receivers::{Giving, Receivers, give_each};
use crate::target::{HashOnly, Target};
use crate::writing::Writer;
use cnb_world::{Memory, Path, Shelf, World};
use std::alloc::Global;
use std::mem;
use tree_canon::Digest;

// Hands on all the bytes of a folder's tree.
fn walk<W: World, T: Target>(
    alloc: Global,
    world: &mut W,
    writer: &mut Writer<T>,
    path: &Path,
) -> Result<(), StoreFault>
    requires { length path.now ≤ 8192 }
    ensures { WalksFolder path.now (writer_seen T.state writer.old) (seen W.World world.old) result
        (writer_seen T.state writer.new) (seen W.World world.new) }
{
    put_tree(alloc, world, writer, path)?;
    writer.flush(alloc, world)
}

/// The digest of a folder's tree. The folder is walked once, and its bytes are hashed in pieces of at most 65,536;
/// nothing of the tree is kept but two pieces and the names of the folders round the place that is read.
pub fn digest_folder<W: World>(
    alloc: Global,
    world: &mut W,
    path: &Path,
) -> Result<Digest, StoreFault>
    requires path { length path.now ≤ 8192 }
    requires plain { is_root path.now ≡ false }
    ensures steps { digests_folder path.now (seen W.World world.old) result (seen W.World world.new) }
{
    let mut writer = Writer::new(alloc, HashOnly);
    walk(alloc, world, &mut writer, path)?;
    let (_, digest) = writer.end();
    Ok(digest)
}

// Keeps what was begun, where the digest of what was read is the one that it was begun under.
fn keep_found(
    alloc: Global,
    receivers: &mut Receivers,
    found: &Digest,
    path: &Path,
) -> Result<(), StoreFault>
    ensures digest { receivers.new.digest ≡ receivers.old.digest }
    ensures keeps { KeepsFound (bytes_eq found.now receivers.old.digest) receivers.old.digest path.now
        (receivers_seen ⟦<dyn Shelf as Shelf>⟧ receivers.old.shelves.items) receivers.old.failed.items result
        (receivers_seen ⟦<dyn Shelf as Shelf>⟧ receivers.new.shelves.items) receivers.new.failed.items }
{
    if !found.same(&receivers.digest) {
        return Err(odd(alloc, path));
    }
    receivers.keep()?;
    Ok(())
}

// Gives the tree of a folder to shelves on which it was begun.
fn give_folder<W: World>(
    alloc: Global,
    world: &mut W,
    receivers: Receivers,
    path: &Path,
) -> (Receivers, Result<(), StoreFault>)
    requires path { length path.now ≤ 8192 }
    requires plain { is_root path.now ≡ false }
    requires begun { HaveBegun receivers.digest [] receivers.failed.items
        (receivers_seen ⟦<dyn Shelf as Shelf>⟧ receivers.shelves.items) }
    ensures { GivesFolder receivers.digest path.now
        (receivers_seen ⟦<dyn Shelf as Shelf>⟧ receivers.shelves.items) receivers.failed.items
        (seen W.World world.old) result.1
        (receivers_seen ⟦<dyn Shelf as Shelf>⟧ result.0.shelves.items) result.0.failed.items
        (seen W.World world.new) }
{
    let mut writer = Writer::new(alloc, receivers);
    let walked = walk(alloc, world, &mut writer, path);
    let (mut given, found) = writer.end();
    match walked {
        Ok(()) => {
            let kept = keep_found(alloc, &mut given, &found, path);
            (given, kept)
        }
        Err(fault) => (given, Err(fault)),
    }
}

/// Puts the tree of a folder, which has this digest, on the first shelves of a list, which are as many as `failed` has
/// entries, but those that failed before. The folder is walked once, and each piece of at most 65,536 bytes goes to all
/// of them; nothing of the tree is kept but two pieces and the names of the folders round the place that is read. A
/// shelf that fails is marked, and isn't asked again. A folder whose tree has another digest is refused as `OddFile`:
/// it was changed since the digest was taken. No shelf keeps anything of a refused one, unless memory ran out while it was
/// kept.
pub fn cache_folder<W: World>(
    alloc: Global,
    world: &mut W,
    shelves: &mut Vec<Box<dyn Shelf>>,
    failed: &mut Vec<bool>,
    digest: &Digest,
    path: &Path,
) -> Result<(), StoreFault>
    requires numbered { length failed.old.items ≤ length shelves.old.items }
    requires path { length path.now ≤ 8192 }
    requires plain { is_root path.now ≡ false }
    ensures caches { CachesFolder digest.now path.now
        (shelves_seen ⟦<dyn Shelf as Shelf>⟧ shelves.old.items) failed.old.items (seen W.World world.old) result
        (shelves_seen ⟦<dyn Shelf as Shelf>⟧ shelves.new.items) failed.new.items (seen W.World world.new) }
{
    give_each(shelves, failed, &Giving::Begin(*digest), &[])?;
    let receivers = Receivers::new(
        *digest,
        mem::replace(shelves, Vec::new(alloc)),
        mem::replace(failed, Vec::new(alloc)),
    );
    let (given, answer) = give_folder(alloc, world, receivers, path);
    let Receivers {
        digest: _,
        shelves: list,
        failed: flags,
    } = given;
    *shelves = list;
    *failed = flags;
    answer
}

/// Sets the rows of the same shelves.
pub fn cache_rows(
    shelves: &mut Vec<Box<dyn Shelf>>,
    failed: &mut Vec<bool>,
    document: &[u8],
) -> Result<(), Memory>
    requires { length failed.old.items ≤ length shelves.old.items }
    ensures { CachesRows document.now
        (shelves_seen ⟦<dyn Shelf as Shelf>⟧ shelves.old.items) failed.old.items result
        (shelves_seen ⟦<dyn Shelf as Shelf>⟧ shelves.new.items) failed.new.items }
{
    give_each(shelves, failed, &Giving::SetRows, document)
}
