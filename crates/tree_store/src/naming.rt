// Giving a tree's file that was written the name of its digest.
ghost use Rattle.std.specs.Prelude.{◌≡◌, ◌≤◌, ◌&&◌, ◌↔◌, ◌⊎◌, ℕ, Option, List as Seq, IfErr, IfOk, IfSome, IsTrue};
ghost use Rattle.std.specs.Prelude.{OnErr, OnOk, drop, false, is_some, not, length, take, true};
ghost use Rattle.std.specs.Option.{option_map};
ghost use Rattle.cnb_world.specs.Calls.{MayMisuse};
ghost use Rattle.cnb_world.specs.Tree.{Tree, bytes_of, is_file, is_root, is_within, item_at, without};
ghost use Rattle.sha2.specs.Sha256.{sha256};
ghost use Rattle.steps.specs.Outside.{seen};
ghost use Rattle.steps.specs.Reading.{LeavesUnchanged};
ghost use Rattle.tree_store.specs.Answers.{BlamesAt, BlamesWithin, IsLater, cause_of, is_free};
ghost use Rattle.tree_store.specs.Around.{KeptAround};
ghost use Rattle.tree_store.specs.Comparing.{IsCompared};
ghost use Rattle.tree_store.specs.Store.{tree_path};
ghost use Rattle.tree_store.specs.Writing.{AreApart, ClashesUnless, HasWritten, IsClearedOf, NamesBytes, LeavesButFile};
ghost use Rattle.tree_store.specs.Writing.{LeavesButPut, PutsBytes, begun_with, new_path, to_file, trees_of};
ghost use Rattle.tree_store.specs.Writing.{writer_seen};

use crate::fault::{StoreFault, or_blame};
use crate::store::{PIECE, is_absent_at, is_last, read_piece, tree_file};
use crate::target::NewFile;
use crate::writing::Writer;
use cnb_world::{Bytes, Path, World};
use std::alloc::Global;
use tree_canon::Digest;

/// Removes a file that was written.
pub(crate) fn remove_new<W: World>(
    alloc: Global,
    world: &mut W,
    file: &Path,
) -> Result<(), StoreFault>
    ensures ok { OnOk result (W.tree world.new ≡ option_map (without file.now) (W.tree world.old)) }
    ensures leaves { LeavesButFile file.now (seen W.World world.old) result (seen W.World world.new) }
    ensures last { OnOk result (W.failed_at world.new ≡ W.failed_at world.old) }
    ensures free { IfErr result (λ fault. IsTrue (is_free fault)) }
    ensures blames { IfErr result (BlamesAt file.now) }
    ensures right { is_root file.now ≡ false → W.misused world.new ≡ W.misused world.old }
{
    or_blame(alloc, file, world.remove(file))
}

// What two pieces say of their files: other bytes, the same to the end of the second file, or the same and perhaps more.
enum Compared {
    Other,
    Last,
    Whole,
}

fn compare(there: &Bytes, here: &Bytes) -> Compared
    ensures { IsCompared there.now here.now result }
{
    if there.as_slice() != here.as_slice() {
        Compared::Other
    } else if is_last(here) {
        Compared::Last
    } else {
        Compared::Whole
    }
}

// Compares two files from a place on, as many bytes as are read at once.
fn compare_piece<W: World>(
    alloc: Global,
    world: &mut W,
    path: &Path,
    file: &Path,
    at: u64,
) -> Result<Compared, StoreFault>
    ensures told { IfSome (W.tree world.old) (λ files. IfOk result (IsCompared
        (take 65536 (drop at (bytes_of (item_at files path.now))))
        (take 65536 (drop at (bytes_of (item_at files file.now)))))) }
    ensures stands { IfSome (W.tree world.old) (λ files. OnOk result (IsTrue (is_file (item_at files path.now)))) }
    ensures free { IfErr result (λ fault. IsTrue (is_free fault)) }
    ensures blames { (folder : Seq ℕ) → is_within folder path.now ≡ true → is_within folder file.now ≡ true
        → IfErr result (BlamesWithin folder) }
    ensures leaves { LeavesUnchanged cause_of result (seen W.World world.old) (seen W.World world.new) }
    ensures misused { MayMisuse (option_map (λ t. is_file (item_at t path.now) && is_file (item_at t file.now))
        (W.tree world.old)) (W.misused world.old) (W.misused world.new) }
{
    let there = read_piece(alloc, world, path, at)?;
    let here = read_piece(alloc, world, file, at)?;
    Ok(compare(&there, &here))
}

// Whether two files have the same bytes. The second has at most so many.
fn same_files<W: World>(
    alloc: Global,
    world: &mut W,
    path: &Path,
    file: &Path,
    len: u64,
) -> Result<bool, StoreFault>
    ensures told { IfSome (W.tree world.old) (λ files. length (bytes_of (item_at files file.now)) ≤ len
        → IfOk result (λ same. IsTrue same
        ↔ (bytes_of (item_at files path.now) ≡ bytes_of (item_at files file.now)))) }
    ensures stands { IfSome (W.tree world.old) (λ files. OnOk result (IsTrue (is_file (item_at files path.now)))) }
    ensures free { IfErr result (λ fault. IsTrue (is_free fault)) }
    ensures blames { (folder : Seq ℕ) → is_within folder path.now ≡ true → is_within folder file.now ≡ true
        → IfErr result (BlamesWithin folder) }
    ensures leaves { LeavesUnchanged cause_of result (seen W.World world.old) (seen W.World world.new) }
    ensures misused { MayMisuse (option_map (λ t. is_file (item_at t path.now) && is_file (item_at t file.now))
        (W.tree world.old)) (W.misused world.old) (W.misused world.new) }
{
    for number in 0..len / PIECE + 1 {
        match compare_piece(alloc, world, path, file, number * PIECE)? {
            Compared::Other => return Ok(false),
            Compared::Last => return Ok(true),
            Compared::Whole => {}
        }
    }
    Ok(true)
}

// The answer where a file stands under the digest that has the same bytes, or others.
fn or_clash(same: bool, digest: &Digest) -> Result<(), StoreFault>
    ensures { ClashesUnless same digest.now result }
{
    if same {
        Ok(())
    } else {
        Err(StoreFault::Clash { digest: *digest })
    }
}

// Compares the file with the one under its digest, and removes it.
fn settle<W: World>(
    alloc: Global,
    world: &mut W,
    path: &Path,
    file: &Path,
    digest: &Digest,
    len: u64,
) -> Result<(), StoreFault>
    ensures leaves { LeavesButFile file.now (seen W.World world.old) result (seen W.World world.new) }
    ensures blames { (folder : Seq ℕ) → is_within folder path.now ≡ true → is_within folder file.now ≡ true
        → IfErr result (BlamesWithin folder) }
    ensures settles { (before : Option Tree) (store bytes : Seq ℕ) → digest.now ≡ sha256 bytes → length bytes ≤ len
        → path.now ≡ tree_path store (sha256 bytes) → file.now ≡ new_path store → AreApart (new_path store) path.now
        → W.tree world.old ≡ option_map (begun_with store bytes) before
        → KeptAround (new_path store) before (W.tree world.old)
        → IfSome (W.tree world.old) (λ files. false ≡ not (is_some (item_at files path.now)))
        → NamesBytes store bytes before (seen W.World world.old) result (seen W.World world.new) }
{
    let same = same_files(alloc, world, path, file, len)?;
    remove_new(alloc, world, file)?;
    or_clash(same, digest)
}

/// Gives a file that was written the name of its digest, where nothing stands under that. A file that stands there has
/// to have the same bytes; then the one that was written is removed.
pub(crate) fn name_file<W: World>(
    alloc: Global,
    world: &mut W,
    store: &Path,
    file: &Path,
    digest: &Digest,
    len: u64,
) -> Result<(), StoreFault>
    requires store { length store.now ≤ 8192 }
    requires file { file.now ≡ new_path store.now }
    ensures leaves { LeavesButPut store.now (seen W.World world.old) result (seen W.World world.new) }
    ensures blames { IfErr result (BlamesWithin (trees_of store.now)) }
    ensures names { (before : Option Tree) (bytes : Seq ℕ) → digest.now ≡ sha256 bytes → length bytes ≤ len
        → W.tree world.old ≡ option_map (begun_with store.now bytes) before
        → KeptAround (new_path store.now) before (W.tree world.old)
        → NamesBytes store.now bytes before (seen W.World world.old) result (seen W.World world.new) }
{
    let path = tree_file(alloc, store, digest)?;
    if is_absent_at(alloc, world, &path)? {
        or_blame(alloc, &path, world.rename(file, &path))
    } else {
        settle(alloc, world, &path, file, digest, len)
    }
}

// Puts the bytes that were written into the store.
fn put_written<W: World>(
    alloc: Global,
    world: &mut W,
    store: &Path,
    mut writer: Writer<NewFile>,
    len: u64,
) -> Result<Digest, StoreFault>
    requires store { length store.now ≤ 8192 }
    requires path { writer.target.path ≡ new_path store.now }
    ensures leaves { LeavesButPut store.now (seen W.World world.old) result (seen W.World world.new) }
    ensures blames { IfErr result (BlamesWithin (trees_of store.now)) }
    ensures puts { (before : Option Tree) (bytes : Seq ℕ)
        → HasWritten store.now before (writer_seen to_file writer) bytes (W.tree world.old) → length bytes ≤ len → PutsBytes store.now bytes before (seen W.World world.old) result
        (seen W.World world.new) }
{
    writer.flush(alloc, world)?;
    let (NewFile { path }, digest) = writer.end();
    name_file(alloc, world, store, &path, &digest, len)?;
    Ok(digest)
}

// Of two refusals the later one, but where memory ran out first.
fn later(fault: StoreFault, failed: StoreFault) -> StoreFault
    ensures { IsLater fault failed result }
{
    match fault {
        StoreFault::Memory => StoreFault::Memory,
        StoreFault::File(_) => failed,
        StoreFault::OddFile(_) => failed,
        StoreFault::Limit(_) => failed,
        StoreFault::NoTree(_) => failed,
        StoreFault::Damaged { .. } => failed,
        StoreFault::Clash { .. } => failed,
    }
}

/// The answer where the tree that is written is refused: what was written is removed first. Where that fails, the answer
/// is that refusal, but where memory had run out.
pub(crate) fn cleared<W: World>(
    alloc: Global,
    world: &mut W,
    store: &Path,
    file: &Path,
    fault: StoreFault,
) -> StoreFault
    requires { file.now ≡ new_path store.now }
    ensures cleared { IsClearedOf fault store.now (seen W.World world.old) result (seen W.World world.new) }
    ensures blames { BlamesWithin (trees_of store.now) result ⊎ (result ≡ fault) }
{
    match remove_new(alloc, world, file) {
        Ok(()) => fault,
        Err(failed) => later(fault, failed),
    }
}

/// Puts the bytes that were written into the store. Where that is refused, what was written is removed.
pub(crate) fn put_or_clear<W: World>(
    alloc: Global,
    world: &mut W,
    store: &Path,
    file: &Path,
    writer: Writer<NewFile>,
    len: u64,
) -> Result<Digest, StoreFault>
    requires store { length store.now ≤ 8192 }
    requires file { file.now ≡ new_path store.now }
    requires path { writer.target.path ≡ new_path store.now }
    ensures leaves { LeavesButPut store.now (seen W.World world.old) result (seen W.World world.new) }
    ensures blames { IfErr result (BlamesWithin (trees_of store.now)) }
    ensures puts { (before : Option Tree) (bytes : Seq ℕ)
        → HasWritten store.now before (writer_seen to_file writer) bytes (W.tree world.old) → length bytes ≤ len → PutsBytes store.now bytes before (seen W.World world.old) result
        (seen W.World world.new) }
{
    match put_written(alloc, world, store, writer, len) {
        Ok(digest) => Ok(digest),
        Err(fault) => Err(cleared(alloc, world, store, file, fault)),
    }
}
