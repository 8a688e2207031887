// Writing the bytes of a tree in pieces, before their digest is known.
ghost use Rattle.std.specs.Prelude.{◌≡◌, ◌≤◌, ◌<◌, ◌++◌, [], ℕ, List as Seq, Option, IfErr, IfOk, IsTrue, OnOk, length};
ghost use Rattle.std.specs.Option.{option_map};
ghost use Rattle.cnb_world.specs.Calls.{MayMisuse};
ghost use Rattle.cnb_world.specs.Path.{is_path};
ghost use Rattle.sha2.specs.Hashers.{Holds256};
ghost use Rattle.sha2.specs.Sha256.{sha256};
ghost use Rattle.steps.specs.Outside.{seen};
ghost use Rattle.tree_store.specs.Answers.{BlamesWithin, is_free};
ghost use Rattle.tree_store.specs.Writing.{Adds, HasWritten, LeavesButFile, LeavesNew, begun_with, can_begin, new_path};
ghost use Rattle.tree_store.specs.Writing.{to_file, trees_of, writer_seen};

use crate::fault::{StoreFault, or_blame};
use crate::laying::piece_end;
use crate::target::{NewFile, Target};
use cnb_world::{Memory, Path, World};
use sha2::{Digest as _, Sha256};
use std::alloc::Global;
use tree_canon::Digest;

/// How many bytes are written at once.
const PIECE: usize = 65536;

/// Hashes bytes and hands them on in pieces. It holds a piece of them.
#[derive(Drop)]
pub(crate) struct Writer<T> {
    target: T,
    hasher: Sha256,
    piece: Vec<u8>,
}

// The path of the folder of the trees' files.
fn trees_folder(alloc: Global, store: &Path) -> Result<Path, Memory>
    requires { length store.now ≤ 8192 }
    ensures path { IfOk result (λ path. path ≡ trees_of store.now) }
    ensures is_path { IfOk result (λ path. IsTrue (is_path path)) }
{
    store.below(alloc, "trees")
}

/// The path of the file that is written before its digest is known.
pub(crate) fn new_file(alloc: Global, store: &Path) -> Result<Path, Memory>
    requires { length store.now ≤ 8192 }
    ensures { IfOk result (λ path. path ≡ new_path store.now) }
{
    let trees = trees_folder(alloc, store)?;
    let path = trees.below(alloc, "new")?;
    Ok(path)
}

// An empty file at its path, in place of one that stands there, with the folders above it.
fn begin_file<W: World>(
    alloc: Global,
    world: &mut W,
    store: &Path,
    path: &Path,
) -> Result<(), StoreFault>
    requires store { length store.now ≤ 8192 }
    requires path { path.now ≡ new_path store.now }
    ensures ok { OnOk result (W.tree world.new ≡ option_map (begun_with store.now []) (W.tree world.old)) }
    ensures leaves { LeavesButFile (new_path store.now) (seen W.World world.old) result (seen W.World world.new) }
    ensures free { IfErr result (λ fault. IsTrue (is_free fault)) }
    ensures blames { IfErr result (BlamesWithin (trees_of store.now)) }
    ensures misused { MayMisuse (option_map (can_begin store.now) (W.tree world.old)) (W.misused world.old)
        (W.misused world.new) }
{
    let trees = trees_folder(alloc, store)?;
    or_blame(alloc, &trees, world.make_folder(&trees))?;
    or_blame(alloc, path, world.create(path, false))
}

/// Begins the file of a tree. One that an earlier call left there is gone.
pub(crate) fn begin<W: World>(
    alloc: Global,
    world: &mut W,
    store: &Path,
) -> Result<Writer<NewFile>, StoreFault>
    requires { length store.now ≤ 8192 }
    ensures path { IfOk result (λ writer. writer.target.path ≡ new_path store.now) }
    ensures begun { IfOk result (λ writer.
        HasWritten store.now (W.tree world.old) (writer_seen to_file writer) [] (W.tree world.new)) }
    ensures leaves { LeavesButFile (new_path store.now) (seen W.World world.old) result (seen W.World world.new) }
    ensures free { IfErr result (λ fault. IsTrue (is_free fault)) }
    ensures blames { IfErr result (BlamesWithin (trees_of store.now)) }
    ensures misused { MayMisuse (option_map (can_begin store.now) (W.tree world.old)) (W.misused world.old)
        (W.misused world.new) }
{
    let path = new_file(alloc, store)?;
    begin_file(alloc, world, store, &path)?;
    Ok(Writer::new(alloc, NewFile { path }))
}

impl<T: Target> Writer<T> {
    /// A writer that took no bytes yet.
    pub(crate) fn new(alloc: Global, target: T) -> Writer<T>
        ensures target { result.target ≡ target }
        ensures piece { result.piece.items ≡ [] }
        ensures hashed { Holds256 result.hasher [] }
    {
        Writer {
            target,
            hasher: Sha256::new(),
            piece: Vec::new(alloc),
        }
    }

    /// Hands on the bytes that are held.
    pub(crate) fn flush<W: World>(&mut self, alloc: Global, world: &mut W) -> Result<(), StoreFault>
        ensures leaves { (path : Seq ℕ)
            → LeavesNew path (writer_seen T.state self.old) (seen W.World world.old) result
            (writer_seen T.state self.new) (seen W.World world.new) }
        ensures adds { (path : Seq ℕ) → Adds path (λ before done more. more ≡ [])
            (λ before fault. IsTrue (is_free fault))
            (writer_seen T.state self.old) (seen W.World world.old) result
            (writer_seen T.state self.new) (seen W.World world.new) }
        ensures empty { OnOk result (self.new.piece.items ≡ []) }
    {
        self.target.append(alloc, world, self.piece.as_slice())?;
        self.piece.clear();
        Ok(())
    }

    // Makes room for so many bytes more.
    fn make_room<W: World>(
        &mut self,
        alloc: Global,
        world: &mut W,
        len: usize,
    ) -> Result<(), StoreFault>
        requires { len ≤ 65536 }
        ensures leaves { (path : Seq ℕ)
            → LeavesNew path (writer_seen T.state self.old) (seen W.World world.old) result
            (writer_seen T.state self.new) (seen W.World world.new) }
        ensures adds { (path : Seq ℕ) → Adds path (λ before done more. more ≡ [])
            (λ before fault. IsTrue (is_free fault))
            (writer_seen T.state self.old) (seen W.World world.old) result
            (writer_seen T.state self.new) (seen W.World world.new) }
    {
        if self.piece.len() > PIECE - len {
            self.flush(alloc, world)
        } else {
            Ok(())
        }
    }

    // Takes bytes for which there is room.
    fn hold(&mut self, bytes: &[u8]) -> Result<(), Memory>
        ensures stays { self.new.target ≡ self.old.target }
        ensures holds { OnOk result (self.new.piece.items ≡ self.old.piece.items ++ bytes.now) }
        ensures hashed { (taken : Seq ℕ) → Holds256 self.old.hasher taken
            → Holds256 self.new.hasher (taken ++ bytes.now) }
    {
        self.hasher.update(bytes);
        self.piece.extend_from_slice(bytes)?;
        Ok(())
    }

    /// Adds bytes, at most as many as are written at once.
    pub(crate) fn add<W: World>(
        &mut self,
        alloc: Global,
        world: &mut W,
        bytes: &[u8],
    ) -> Result<(), StoreFault>
        requires { length bytes.now ≤ 65536 }
        ensures leaves { (path : Seq ℕ)
            → LeavesNew path (writer_seen T.state self.old) (seen W.World world.old) result
            (writer_seen T.state self.new) (seen W.World world.new) }
        ensures adds { (path : Seq ℕ) → Adds path (λ before done more. more ≡ bytes.now)
            (λ before fault. IsTrue (is_free fault))
            (writer_seen T.state self.old) (seen W.World world.old) result
            (writer_seen T.state self.new) (seen W.World world.new) }
    {
        self.make_room(alloc, world, bytes.len())?;
        self.hold(bytes)?;
        Ok(())
    }

    /// Adds bytes in pieces.
    pub(crate) fn add_all<W: World>(
        &mut self,
        alloc: Global,
        world: &mut W,
        bytes: &[u8],
    ) -> Result<(), StoreFault>
        ensures leaves { (path : Seq ℕ)
            → LeavesNew path (writer_seen T.state self.old) (seen W.World world.old) result
            (writer_seen T.state self.new) (seen W.World world.new) }
        ensures adds { (path : Seq ℕ) → Adds path (λ before done more. more ≡ bytes.now)
            (λ before fault. IsTrue (is_free fault))
            (writer_seen T.state self.old) (seen W.World world.old) result
            (writer_seen T.state self.new) (seen W.World world.new) }
    {
        let mut done = 0usize;
        while done < bytes.len() {
            let end = piece_end(done, bytes.len());
            self.add(alloc, world, &bytes[done..end])?;
            done = end;
        }
        Ok(())
    }

    /// Where the bytes went, and their digest.
    pub(crate) fn end(self) -> (T, Digest)
        ensures target { result.0 ≡ self.target }
        ensures digest { (bytes : Seq ℕ) → Holds256 self.hasher bytes → result.1 ≡ sha256 bytes }
    {
        let Writer {
            target,
            hasher,
            piece: _,
        } = self;
        (target, Digest::from_bytes(hasher.finalize()))
    }
}
