// The store of trees: each tree's bytes in a file that is named after their digest.
ghost use Rattle.std.specs.Prelude.{◌≡◌, ◌≤◌, ◌+◌, ◌*◌, ◌-◌, ◌<◌, ◌↔◌, IfErr, IfOk, IfSome, IsTrue, Ok, OnOk, OnErr};
ghost use Rattle.std.specs.Prelude.{length, take, drop, is_some, not, false, true, ℕ};
ghost use Rattle.std.specs.Option.{option_map};
ghost use Rattle.sha2.specs.Sha256.{sha256};
ghost use Rattle.cnb_world.specs.Calls.{AppendsSome, CountsFailed, MayMisuse};
ghost use Rattle.cnb_world.specs.Path.{is_path, beside, parent_of};
ghost use Rattle.cnb_world.specs.Tree.{appended, bytes_of, can_read, item_at, is_file, is_file_or_absent, is_root};
ghost use Rattle.cnb_world.specs.Tree.{is_within};
ghost use Rattle.cnb_world.specs.Whole.{can_write, written, LeavesPart};
ghost use Rattle.tree_canon.specs.Pieces.{bytes_left};
ghost use Rattle.tree_canon.specs.Spelling.{limit, spelling_of};
ghost use Rattle.steps.specs.Causes.{CountsFiles, IsAnswer};
ghost use Rattle.steps.specs.Outside.{seen};
ghost use Rattle.steps.specs.Reading.{LeavesUnchanged};
ghost use Rattle.tree_store.specs.Answers.{BlamesAt, is_free, is_file_kind, is_absent_kind, cause_of};
ghost use Rattle.tree_store.specs.Steps.{gets_tree, looks_for_tree, puts_tree};
ghost use Rattle.tree_store.specs.Writing.{AreApart, new_path, trees_of};
ghost use Rattle.tree_store.specs.Store.{tree_path, tree_put, kept_or_written, Gets, IsJudgedTree, Keeps, Puts};
ghost use Rattle.tree_store.specs.Store.{LeavesStore};

use crate::fault::{StoreFault, blamed};
use crate::reading::kind_at;
use cnb_world::{Bytes, FileFault, Kind, Memory, Path, World};
use std::alloc::Global;
use tree_canon::{Digest, Judged, Judging, Tree, TreePieces};

/// How many bytes are read at once.
pub(crate) const PIECE: u64 = 65536;

// The path of a tree's file.
pub(crate) fn tree_file(alloc: Global, store: &Path, digest: &Digest) -> Result<Path, Memory>
    requires { length store.now ≤ 8192 }
    ensures path { IfOk result (λ path. path ≡ tree_path store.now digest.now) }
    ensures beside { IfOk result (λ path. IsTrue (is_path (beside path))) }
    ensures not_root { IfOk result (λ path. is_root path ≡ false) }
    ensures apart { IfOk result (AreApart (new_path store.now)) }
    ensures parent { IfOk result (λ path. parent_of path ≡ trees_of store.now) }
    ensures within { IfOk result (λ path. is_within (trees_of store.now) path ≡ true) }
{
    let trees = store.below(alloc, "trees")?;
    let name = digest.text(alloc)?;
    let path = trees.below(alloc, name.as_str())?;
    Ok(path)
}

fn is_file(kind: Kind) -> bool
    ensures { result ≡ is_file_kind kind }
{
    match kind {
        Kind::File { exec: _, len: _ } => true,
        Kind::Absent => false,
        Kind::Folder => false,
        Kind::Link => false,
        Kind::Odd => false,
    }
}

fn is_absent(kind: Kind) -> bool
    ensures { result ≡ is_absent_kind kind }
{
    match kind {
        Kind::Absent => true,
        Kind::File { exec: _, len: _ } => false,
        Kind::Folder => false,
        Kind::Link => false,
        Kind::Odd => false,
    }
}

// Whether a tree's file stands.
#[tactic(auto, using(crate::proofs::Puts::has_told))]
fn stands<W: World>(
    alloc: Global,
    world: &mut W,
    store: &Path,
    digest: &Digest,
) -> Result<bool, StoreFault>
    requires { length store.now ≤ 8192 }
    ensures reads { IfSome (W.tree world.old) (λ files. IsAnswer cause_of result
        (Ok (is_file (item_at files (tree_path store.now digest.now))))) }
    ensures blames { IfErr result (BlamesAt (tree_path store.now digest.now)) }
    ensures leaves { LeavesUnchanged cause_of result (seen W.World world.old) (seen W.World world.new) }
    ensures misused { W.misused world.new ≡ W.misused world.old }
{
    let path = tree_file(alloc, store, digest)?;
    let kind = kind_at(alloc, world, &path)?;
    Ok(is_file(kind))
}

/// Whether the store has a tree's file.
#[tactic(auto, using(crate::proofs::CallSteps::looked))]
pub fn has<W: World>(
    alloc: Global,
    world: &mut W,
    store: &Path,
    digest: &Digest,
) -> Result<bool, StoreFault>
    requires { length store.now ≤ 8192 }
    ensures steps { looks_for_tree store.now digest.now (seen W.World world.old) result (seen W.World world.new) }
    ensures blames { IfErr result (BlamesAt (tree_path store.now digest.now)) }
{
    stands(alloc, world, store, digest)
}

// The bytes of the file at a path from a place on, at most as many as are read at once.
#[tactic(auto, using(crate::proofs::Blames::blamed_last))]
pub(crate) fn read_piece<W: World>(
    alloc: Global,
    world: &mut W,
    path: &Path,
    at: u64,
) -> Result<Bytes, StoreFault>
    ensures told { IfSome (W.tree world.old) (λ files. IfOk result
        (λ piece. piece ≡ take 65536 (drop at (bytes_of (item_at files path.now))))) }
    ensures file { IfSome (W.tree world.old) (λ files. OnOk result (IsTrue (is_file (item_at files path.now)))) }
    ensures free { IfErr result (λ fault. IsTrue (is_free fault)) }
    ensures blames { IfErr result (BlamesAt path.now) }
    ensures leaves { LeavesUnchanged cause_of result (seen W.World world.old) (seen W.World world.new) }
    ensures misused { MayMisuse (option_map (λ t. is_file (item_at t path.now)) (W.tree world.old))
        (W.misused world.old)
        (W.misused world.new) }
{
    match world.read(path, at, PIECE) {
        Ok(piece) => Ok(piece),
        Err(fault) => Err(blamed(alloc, path, fault)),
    }
}

/// Whether a file ends with a piece that was read: fewer bytes came than were asked for.
pub(crate) fn is_last(piece: &Bytes) -> bool
    ensures { IsTrue result ↔ (length piece.now < 65536) }
{
    (piece.as_slice().len() as u64) < PIECE
}

// Whether the file at a path has these bytes from a place on, where at most so many are asked for.
#[tactic(auto, using(crate::proofs::Blames::blamed_last))]
fn has_piece<W: World>(
    alloc: Global,
    world: &mut W,
    path: &Path,
    at: u64,
    max: u64,
    piece: &Bytes,
) -> Result<bool, StoreFault>
    ensures told { IfSome (W.tree world.old) (λ files. IfOk result (λ same. IsTrue same
        ↔ (take max (drop at (bytes_of (item_at files path.now))) ≡ piece.now))) }
    ensures file { IfSome (W.tree world.old) (λ files. OnOk result (IsTrue (is_file (item_at files path.now)))) }
    ensures free { IfErr result (λ fault. IsTrue (is_free fault)) }
    ensures blames { IfErr result (BlamesAt path.now) }
    ensures leaves { LeavesUnchanged cause_of result (seen W.World world.old) (seen W.World world.new) }
    ensures misused { MayMisuse (option_map (λ t. is_file (item_at t path.now)) (W.tree world.old))
        (W.misused world.old)
        (W.misused world.new) }
{
    match world.read(path, at, max) {
        Ok(found) => Ok(found.as_slice() == piece.as_slice()),
        Err(fault) => Err(blamed(alloc, path, fault)),
    }
}

// A tree's bytes in pieces. There are no more of them than a spelling may have.
fn pieces_of<'a>(alloc: Global, tree: &'a Tree) -> Result<TreePieces<'a>, Memory>
    ensures all { IfOk result (λ pieces. bytes_left pieces ≡ spelling_of tree.now) }
    ensures few { length (spelling_of tree.now) ≤ limit }
{
    // The proof takes from this call that the tree has a spelling.
    let _root = tree.node();
    TreePieces::new(alloc, tree)
}

// Whether the file at a path has a tree's bytes and no others. They are compared a piece after another. With the last
// one a byte more is asked for, which would be behind them.
fn has_bytes<W: World>(
    alloc: Global,
    world: &mut W,
    path: &Path,
    tree: &Tree,
) -> Result<bool, StoreFault>
    ensures told { IfSome (W.tree world.old) (λ files. IfOk result
        (λ same. IsTrue same ↔ (bytes_of (item_at files path.now) ≡ spelling_of tree.now))) }
    ensures file { IfSome (W.tree world.old) (λ files. OnOk result (IsTrue (is_file (item_at files path.now)))) }
    ensures free { IfErr result (λ fault. IsTrue (is_free fault)) }
    ensures blames { IfErr result (BlamesAt path.now) }
    ensures leaves { LeavesUnchanged cause_of result (seen W.World world.old) (seen W.World world.new) }
    ensures misused { MayMisuse (option_map (λ t. is_file (item_at t path.now)) (W.tree world.old))
        (W.misused world.old)
        (W.misused world.new) }
{
    let mut pieces = pieces_of(alloc, tree)?;
    let mut at = 0u64;
    let mut piece = pieces.next(alloc)?;
    let mut next = pieces.next(alloc)?;
    while !next.as_slice().is_empty() {
        let len = piece.as_slice().len() as u64;
        if !has_piece(alloc, world, path, at, len, &piece)? {
            return Ok(false);
        }
        at += len;
        piece = next;
        next = pieces.next(alloc)?;
    }
    has_piece(
        alloc,
        world,
        path,
        at,
        piece.as_slice().len() as u64 + 1,
        &piece,
    )
}

// Whether nothing stands at a path.
#[tactic(auto, using(crate::proofs::Puts::absent_told))]
pub(crate) fn is_absent_at<W: World>(
    alloc: Global,
    world: &mut W,
    path: &Path,
) -> Result<bool, StoreFault>
    ensures told { IfSome (W.tree world.old) (λ files. IfOk result
        (λ absent. absent ≡ not (is_some (item_at files path.now)))) }
    ensures free { IfErr result (λ fault. IsTrue (is_free fault)) }
    ensures blames { IfErr result (BlamesAt path.now) }
    ensures leaves { LeavesUnchanged cause_of result (seen W.World world.old) (seen W.World world.new) }
    ensures misused { W.misused world.new ≡ W.misused world.old }
{
    let kind = kind_at(alloc, world, path)?;
    Ok(is_absent(kind))
}

// Sees that the file at a path has a tree's bytes.
fn compare<W: World>(
    alloc: Global,
    world: &mut W,
    path: &Path,
    tree: &Tree,
    digest: &Digest,
) -> Result<(), StoreFault>
    ensures keeps { IfSome (W.tree world.old) (λ files.
        Keeps digest.now (spelling_of tree.now) (item_at files path.now) result) }
    ensures blames { IfErr result (BlamesAt path.now) }
    ensures leaves { LeavesUnchanged cause_of result (seen W.World world.old) (seen W.World world.new) }
    ensures misused { MayMisuse (option_map (λ t. is_file (item_at t path.now)) (W.tree world.old))
        (W.misused world.old)
        (W.misused world.new) }
{
    if has_bytes(alloc, world, path, tree)? {
        Ok(())
    } else {
        Err(StoreFault::Clash { digest: *digest })
    }
}

// A tree's bytes behind those of a file, appended a piece after another.
fn append_tree<W: World>(
    alloc: Global,
    world: &mut W,
    path: &Path,
    tree: &Tree,
) -> Result<(), FileFault>
    requires { IfSome (W.tree world.old) (λ files. IsTrue (can_read files path.now)) }
    ensures ok { OnOk result (W.tree world.new
        ≡ option_map (appended path.now (spelling_of tree.now)) (W.tree world.old)) }
    ensures err { OnErr result (AppendsSome (W.tree world.old) (W.tree world.new) path.now (spelling_of tree.now)) }
    ensures files { CountsFailed result (W.file_faults world.old) (W.file_faults world.new) }
    ensures children { W.child_faults world.new ≡ W.child_faults world.old }
    ensures runs { W.runs world.new ≡ W.runs world.old }
    ensures misused { W.misused world.new ≡ W.misused world.old }
{
    let mut pieces = TreePieces::new(alloc, tree)?;
    let mut piece = pieces.next(alloc)?;
    while !piece.as_slice().is_empty() {
        world.append(path, piece.as_slice())?;
        piece = pieces.next(alloc)?;
    }
    Ok(())
}

// A file of a tree's bytes, with the folders above it: first beside its path, and then under its name.
#[tactic(auto, using(cnb_world::proofs::Trees::written_run))]
fn write_pieces<W: World>(
    alloc: Global,
    world: &mut W,
    path: &Path,
    tree: &Tree,
) -> Result<(), FileFault>
    requires beside { IsTrue (is_path (beside path.now)) }
    requires not_root { is_root path.now ≡ false }
    ensures ok { OnOk result (W.tree world.new
        ≡ option_map (written path.now (spelling_of tree.now)) (W.tree world.old)) }
    ensures err { OnErr result (LeavesPart (W.tree world.old) (W.tree world.new) path.now (spelling_of tree.now)) }
    ensures files { CountsFailed result (W.file_faults world.old) (W.file_faults world.new) }
    ensures children { W.child_faults world.new ≡ W.child_faults world.old }
    ensures runs { W.runs world.new ≡ W.runs world.old }
    ensures misused { MayMisuse (option_map (can_write path.now) (W.tree world.old))
        (W.misused world.old) (W.misused world.new) }
{
    let folder = path.parent(alloc)?;
    let unfinished = path.beside(alloc)?;
    world.make_folder(&folder)?;
    world.create(&unfinished, false)?;
    append_tree(alloc, world, &unfinished, tree)?;
    world.rename(&unfinished, path)?;
    Ok(())
}

// A tree's bytes in a new file at a path.
fn write_new<W: World>(
    alloc: Global,
    world: &mut W,
    path: &Path,
    tree: &Tree,
) -> Result<(), StoreFault>
    requires beside { IsTrue (is_path (beside path.now)) }
    requires not_root { is_root path.now ≡ false }
    ensures ok { OnOk result (W.tree world.new
        ≡ option_map (written path.now (spelling_of tree.now)) (W.tree world.old)) }
    ensures err { OnErr result (LeavesPart (W.tree world.old) (W.tree world.new) path.now (spelling_of tree.now)) }
    ensures free { IfErr result (λ fault. IsTrue (is_free fault)) }
    ensures blames { IfErr result (BlamesAt path.now) }
    ensures files { CountsFiles cause_of result (W.file_faults world.old) (W.file_faults world.new) }
    ensures children { W.child_faults world.new ≡ W.child_faults world.old }
    ensures runs { W.runs world.new ≡ W.runs world.old }
    ensures misused { MayMisuse (option_map (can_write path.now) (W.tree world.old)) (W.misused world.old)
        (W.misused world.new) }
{
    match write_pieces(alloc, world, path, tree) {
        Ok(()) => Ok(()),
        Err(fault) => Err(blamed(alloc, path, fault)),
    }
}

// A tree's bytes in the file at a path, which is written where nothing stands and else compared.
fn keep<W: World>(
    alloc: Global,
    world: &mut W,
    path: &Path,
    tree: &Tree,
    digest: &Digest,
) -> Result<(), StoreFault>
    requires beside { IsTrue (is_path (beside path.now)) }
    requires not_root { is_root path.now ≡ false }
    ensures keeps { IfSome (W.tree world.old) (λ files.
        Keeps digest.now (spelling_of tree.now) (item_at files path.now) result) }
    ensures ok { OnOk result (W.tree world.new
        ≡ option_map (kept_or_written path.now (spelling_of tree.now)) (W.tree world.old)) }
    ensures err { IfErr result (λ fault.
        LeavesStore fault path.now (spelling_of tree.now) (W.tree world.old) (W.tree world.new)) }
    ensures blames { IfErr result (BlamesAt path.now) }
    ensures files { CountsFiles cause_of result (W.file_faults world.old) (W.file_faults world.new) }
    ensures children { W.child_faults world.new ≡ W.child_faults world.old }
    ensures runs { W.runs world.new ≡ W.runs world.old }
    ensures misused { MayMisuse (option_map (can_write path.now) (W.tree world.old)) (W.misused world.old)
        (W.misused world.new) }
{
    if is_absent_at(alloc, world, path)? {
        write_new(alloc, world, path, tree)?;
        return Ok(());
    }
    compare(alloc, world, path, tree, digest)?;
    Ok(())
}

// Puts a tree into its file.
fn put_file<W: World>(
    alloc: Global,
    world: &mut W,
    store: &Path,
    tree: &Tree,
) -> Result<Digest, StoreFault>
    requires { length store.now ≤ 8192 }
    ensures digest { IfOk result (λ digest. digest ≡ sha256 (spelling_of tree.now)) }
    ensures puts { IfSome (W.tree world.old) (λ files. Puts store.now tree.now files result) }
    ensures ok { OnOk result (W.tree world.new ≡ option_map (tree_put store.now tree.now) (W.tree world.old)) }
    ensures err { IfErr result (λ fault. LeavesStore fault (tree_path store.now (sha256 (spelling_of tree.now)))
        (spelling_of tree.now) (W.tree world.old) (W.tree world.new)) }
    ensures blames { IfErr result (BlamesAt (tree_path store.now (sha256 (spelling_of tree.now)))) }
    ensures files { CountsFiles cause_of result (W.file_faults world.old) (W.file_faults world.new) }
    ensures children { W.child_faults world.new ≡ W.child_faults world.old }
    ensures runs { W.runs world.new ≡ W.runs world.old }
    ensures misused { MayMisuse (option_map (can_write (tree_path store.now (sha256 (spelling_of tree.now))))
        (W.tree world.old))
        (W.misused world.old) (W.misused world.new) }
{
    let digest = Digest::of_tree(alloc, tree)?;
    let path = tree_file(alloc, store, &digest)?;
    keep(alloc, world, &path, tree, &digest)?;
    Ok(digest)
}

/// Puts a tree into the store, as `<store>/trees/<64 digits>`. A tree that is there is left. `Clash` comes where the
/// file of that name has other bytes.
#[tactic(auto, using(crate::proofs::CallSteps::put_so))]
pub fn put<W: World>(
    alloc: Global,
    world: &mut W,
    store: &Path,
    tree: &Tree,
) -> Result<Digest, StoreFault>
    requires { length store.now ≤ 8192 }
    ensures steps { puts_tree store.now tree.now (seen W.World world.old) result (seen W.World world.new) }
{
    put_file(alloc, world, store, tree)
}

// The tree of judged bytes.
fn judged_tree(judged: Judged) -> Result<Tree, StoreFault>
    ensures { IsJudgedTree judged result }
{
    match judged {
        Judged::Tree(tree) => Ok(tree),
        Judged::Damaged { asked, found, bad } => Err(StoreFault::Damaged { asked, found, bad }),
    }
}

// The tree of the file at a path, which has so many bytes.
fn read_kept<W: World>(
    alloc: Global,
    world: &mut W,
    path: &Path,
    len: u64,
    digest: &Digest,
) -> Result<Tree, StoreFault>
    requires len { IfSome (W.tree world.old) (λ files. length (bytes_of (item_at files path.now)) ≤ len) }
    requires stands { IfSome (W.tree world.old) (λ files. IsTrue (is_some (item_at files path.now))) }
    ensures gets { IfSome (W.tree world.old) (λ files. Gets digest.now (item_at files path.now) result) }
    ensures digest { IfOk result (λ tree. sha256 (spelling_of tree) ≡ digest.now) }
    ensures blames { IfErr result (BlamesAt path.now) }
    ensures leaves { LeavesUnchanged cause_of result (seen W.World world.old) (seen W.World world.new) }
    ensures misused { MayMisuse (option_map (λ t. is_file (item_at t path.now)) (W.tree world.old))
        (W.misused world.old)
        (W.misused world.new) }
{
    let mut judging = Judging::new(alloc)?;
    for number in 0..len / PIECE + 1 {
        let piece = read_piece(alloc, world, path, number * PIECE)?;
        judging.take(piece.as_slice())?;
        if is_last(&piece) {
            break;
        }
    }
    let judged = judging.end(digest)?;
    judged_tree(judged)
}

// The tree of a digest's file.
fn get_file<W: World>(
    alloc: Global,
    world: &mut W,
    store: &Path,
    digest: &Digest,
) -> Result<Tree, StoreFault>
    requires { length store.now ≤ 8192 }
    ensures gets { IfSome (W.tree world.old) (λ files. Gets digest.now
        (item_at files (tree_path store.now digest.now)) result) }
    ensures digest { IfOk result (λ tree. sha256 (spelling_of tree) ≡ digest.now) }
    ensures blames { IfErr result (BlamesAt (tree_path store.now digest.now)) }
    ensures leaves { LeavesUnchanged cause_of result (seen W.World world.old) (seen W.World world.new) }
    ensures misused { MayMisuse (option_map (λ t. is_file_or_absent (item_at t (tree_path store.now digest.now)))
        (W.tree world.old)) (W.misused world.old) (W.misused world.new) }
{
    let path = tree_file(alloc, store, digest)?;
    match kind_at(alloc, world, &path)? {
        Kind::Absent => Err(StoreFault::NoTree(*digest)),
        Kind::File { exec: _, len } => read_kept(alloc, world, &path, len, digest),
        Kind::Folder => read_kept(alloc, world, &path, 0, digest),
        Kind::Link => read_kept(alloc, world, &path, 0, digest),
        Kind::Odd => read_kept(alloc, world, &path, 0, digest),
    }
}

/// The tree that the store has under a digest. The digest of the file's bytes is judged first: `bad` is none where it
/// is another, and else says why the bytes spell no tree.
#[tactic(auto, using(crate::proofs::CallSteps::got_so))]
pub fn get<W: World>(
    alloc: Global,
    world: &mut W,
    store: &Path,
    digest: &Digest,
) -> Result<Tree, StoreFault>
    requires { length store.now ≤ 8192 }
    ensures steps { gets_tree store.now digest.now (seen W.World world.old) result (seen W.World world.new) }
    ensures digest { IfOk result (λ tree. sha256 (spelling_of tree) ≡ digest.now) }
{
    get_file(alloc, world, store, digest)
}
