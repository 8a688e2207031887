// Seeing that a tree's file is the spelling of a tree of its digest, as its bytes come.
ghost use Rattle.std.specs.Prelude.{◌≡◌, ◌≤◌, ◌++◌, [], ℕ, List as Seq, IfErr, IfOk, IfSome, IsTrue, OnOk, length};
ghost use Rattle.std.specs.Prelude.{is_some};
ghost use Rattle.std.specs.Option.{option_map};
ghost use Rattle.cnb_world.specs.Calls.{MayMisuse};
ghost use Rattle.cnb_world.specs.Tree.{item_at, is_file, is_file_or_absent, bytes_of};
ghost use Rattle.steps.specs.Causes.{CountsFiles};
ghost use Rattle.steps.specs.Outside.{seen};
ghost use Rattle.steps.specs.Reading.{LeavesUnchanged};
ghost use Rattle.tree_store.specs.Answers.{BlamesAt, cause_of};
ghost use Rattle.tree_store.specs.Checking.{Checks, ChecksOf, HasChecked};
ghost use Rattle.tree_store.specs.Digests.{HasTree};
ghost use Rattle.tree_store.specs.Store.{tree_path};

use crate::fault::StoreFault;
use crate::reading::kind_at;
use crate::store::{PIECE, is_last, read_piece, tree_file};
use cnb_world::{Kind, Memory, Path, World};
use sha2::{Digest as _, Sha256};
use std::alloc::Global;
use tree_canon::{DecodeFault, Digest, Reason, Scan};

/// Takes the bytes of a tree's file in pieces. It makes no tree of them, and keeps nothing of a file's contents.
#[derive(Drop)]
pub struct TreeCheck {
    hasher: Sha256,
    scan: Scan,
}

impl TreeCheck {
    /// No bytes yet.
    pub fn new(alloc: Global) -> Result<TreeCheck, Memory>
        ensures { IfOk result (λ checking. HasChecked checking []) }
    {
        Ok(TreeCheck {
            hasher: Sha256::new(),
            scan: Scan::new(alloc)?,
        })
    }

    /// Takes the next bytes.
    pub fn take(&mut self, piece: &[u8]) -> Result<(), Memory>
        ensures { OnOk result ((bytes : Seq ℕ) → HasChecked self.old bytes → HasChecked self.new (bytes ++ piece.now)) }
    {
        self.hasher.update(piece);
        match self.scan.feed(piece) {
            Ok(()) => Ok(()),
            Err(DecodeFault::Bad { at: _, reason: _ }) => Ok(()),
            Err(DecodeFault::Memory) => Err(Memory),
        }
    }

    /// Whether all bytes are the spelling of a tree of this digest. Their own digest is judged first.
    pub fn end(self, digest: &Digest) -> Result<(), StoreFault>
        ensures checks { (bytes : Seq ℕ) → HasChecked self bytes → ChecksOf digest.now bytes result }
        ensures blames { (path : Seq ℕ) → IfErr result (BlamesAt path) }
        ensures counts { (n : ℕ) → CountsFiles cause_of result n n }
    {
        let TreeCheck { hasher, scan } = self;
        let found = Digest::from_bytes(hasher.finalize());
        if !found.same(digest) {
            return Err(damaged(digest, found, None));
        }
        match scan.finish() {
            Ok(()) => Ok(()),
            Err(DecodeFault::Bad { at: _, reason }) => Err(damaged(digest, found, Some(reason))),
            Err(DecodeFault::Memory) => Err(StoreFault::Memory),
        }
    }
}

fn damaged(asked: &Digest, found: Digest, bad: Option<Reason>) -> StoreFault
    ensures { result ≡ StoreFault.Damaged asked.now found bad }
{
    StoreFault::Damaged {
        asked: *asked,
        found,
        bad,
    }
}

// Checks the file at a path, which has so many bytes.
#[tactic(auto, using(crate::proofs::Blames::names_none))]
fn check_kept<W: World>(
    alloc: Global,
    world: &mut W,
    path: &Path,
    len: u64,
    digest: &Digest,
) -> Result<(), StoreFault>
    requires len { IfSome (W.tree world.old) (λ files. length (bytes_of (item_at files path.now)) ≤ len) }
    requires stands { IfSome (W.tree world.old) (λ files. IsTrue (is_some (item_at files path.now))) }
    ensures checks { IfSome (W.tree world.old) (λ files. Checks digest.now (item_at files path.now) result) }
    ensures digest { OnOk result (HasTree digest.now) }
    ensures blames { IfErr result (BlamesAt path.now) }
    ensures leaves { LeavesUnchanged cause_of result (seen W.World world.old) (seen W.World world.new) }
    ensures misused { MayMisuse (option_map (λ t. is_file (item_at t path.now)) (W.tree world.old))
        (W.misused world.old)
        (W.misused world.new) }
{
    let mut checking = TreeCheck::new(alloc)?;
    for number in 0..len / PIECE + 1 {
        let piece = read_piece(alloc, world, path, number * PIECE)?;
        checking.take(piece.as_slice())?;
        if is_last(&piece) {
            break;
        }
    }
    checking.end(digest)
}

/// Checks the file of a digest.
pub(crate) fn check_file<W: World>(
    alloc: Global,
    world: &mut W,
    store: &Path,
    digest: &Digest,
) -> Result<(), StoreFault>
    requires { length store.now ≤ 8192 }
    ensures checks { IfSome (W.tree world.old) (λ files. Checks digest.now
        (item_at files (tree_path store.now digest.now)) result) }
    ensures digest { OnOk result (HasTree digest.now) }
    ensures blames { IfErr result (BlamesAt (tree_path store.now digest.now)) }
    ensures leaves { LeavesUnchanged cause_of result (seen W.World world.old) (seen W.World world.new) }
    ensures misused { MayMisuse (option_map (λ t. is_file_or_absent (item_at t (tree_path store.now digest.now)))
        (W.tree world.old)) (W.misused world.old) (W.misused world.new) }
{
    let path = tree_file(alloc, store, digest)?;
    match kind_at(alloc, world, &path)? {
        Kind::Absent => Err(StoreFault::NoTree(*digest)),
        Kind::File { exec: _, len } => check_kept(alloc, world, &path, len, digest),
        Kind::Folder => check_kept(alloc, world, &path, 0, digest),
        Kind::Link => check_kept(alloc, world, &path, 0, digest),
        Kind::Odd => check_kept(alloc, world, &path, 0, digest),
    }
}
