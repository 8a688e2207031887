// Laying a tree as its bytes are read.
ghost use Rattle.std.specs.Prelude.{◌≡◌, ◌<◌, ◌≤◌, ◌+◌, ◌-◌, ◌*◌, ◌++◌, ◌∷◌, [], ℕ, Bool, List as Seq, IfOk, IsTrue};
ghost use Rattle.std.specs.Prelude.{OnOk, length, if◌then◌else◌, true, false, None};
ghost use Rattle.std.specs.Int.{to_be_bytes, w16, w32, w64};
ghost use Rattle.std.specs.List.{list_all};
ghost use Rattle.cnb_world.specs.Path.{is_part, joined};
ghost use Rattle.cnb_world.specs.Effects.{is_slashed};
ghost use Rattle.cnb_world.specs.Tree.{is_under, is_within};
ghost use Rattle.tree_canon.specs.declared.node.Named.{Named};
ghost use Rattle.tree_canon.specs.declared.node.Node.{Node};
ghost use Rattle.tree_canon.specs.declared.node.Node.TheVariants.{Folder, File, Link};
ghost use Rattle.tree_canon.specs.Fits.{fits, entries_fit, name_fits};
ghost use Rattle.tree_canon.specs.Names.{follows, is_target};
ghost use Rattle.tree_canon.specs.Spelling.{node_bytes, entry_bytes, entries_bytes};
ghost use Rattle.steps.specs.Outside.{seen};
ghost use Rattle.tree_store.specs.Ahead.{Ahead, Does, Lays, LaysPartly, LaysTree};
ghost use Rattle.tree_store.specs.Laying.{entries_laid, entry_laid, laid_under, node_laid};
ghost use Rattle.tree_store.specs.Origin.{Leaves};
ghost use Rattle.tree_store.specs.Overlay.{folder_at, items_of, items_under, parts_of, tree_laid, way_parts};
ghost use Rattle.tree_store.specs.Partly.{LaidPartly, items_placed};
ghost use Rattle.tree_store.specs.Right.{way_into, way_to};
ghost use Rattle.tree_store.specs.Source.{source_seen};
ghost use Rattle.tree_store.specs.Taking.{LaysTaken, TakesContents, TakesEntries, TakesEntry, TakesFile, TakesFolder};
ghost use Rattle.tree_store.specs.Taking.{TakesLink, TakesNode};

use crate::fault::{StoreFault, or_blame};
use crate::kept_bytes::{KeptBytes, u32_of, u64_of};
use crate::laying::{lay_file, lay_folder, lay_link, next_part, way_to};
use crate::origin::Origin;
use cnb_world::{Path, Text, World};
use std::alloc::Global;
use std::cmp::Ordering;
use tree_canon::{Reason, is_target};

/// How deep a node may lie.
const MAX_DEPTH: usize = 64;

/// How many bytes are written at once.
const PIECE: u64 = 65536;

/// Whether a path is a folder's or lies below it.
pub(crate) fn is_within(folder: &str, path: &str) -> bool
    ensures { result ≡ is_within folder.now path.now }
{
    folder == "/" || is_under(folder, path)
}

fn is_under(folder: &str, path: &str) -> bool
    ensures { result ≡ is_under folder.now path.now }
{
    match path.strip_prefix(folder) {
        Some(rest) => is_slashed(rest.as_bytes()),
        None => false,
    }
}

fn is_slashed(rest: &[u8]) -> bool
    ensures { result ≡ is_slashed rest.now }
{
    match rest {
        [] => true,
        [first, ..] => *first == b'/',
    }
}

// A link in place of what stands at a path.
fn lay_kept_link<W: World, O: Origin>(
    alloc: Global,
    world: &mut W,
    source: &mut KeptBytes<O>,
    path: &Path,
) -> Result<(), StoreFault>
    requires apart { is_within path.now (O.state source.old.origin).path ≡ false }
    ensures leaves { Leaves path.now (O.state source.old.origin) (seen W.World world.old)
        result (O.state source.new.origin) (seen W.World world.new) }
    ensures lays { (target rest : Seq ℕ) → is_target target ≡ true
        → Lays (to_be_bytes w16 (length target) ++ (target ++ rest)) rest (node_laid (Link target) path.now)
        (way_to path.now) [] (source_seen O.state source.old) (seen W.World world.old)
        result (source_seen O.state source.new) (seen W.World world.new) }
    ensures partly { (target rest : Seq ℕ) → is_target target ≡ true
        → LaysPartly path.now (items_of (Link target) path.now)
        (to_be_bytes w16 (length target) ++ (target ++ rest)) (way_to path.now)
        (source_seen O.state source.old) (seen W.World world.old) (seen W.World world.new) }
    ensures takes { OnOk result (TakesLink path.now
        (source_seen O.state source.old) (seen W.World world.old)
        (source_seen O.state source.new) (seen W.World world.new)) }
{
    let target = source.text(alloc, world, 4096)?;
    if !is_target(target.as_str().as_bytes()) {
        return Err(source.broken(Reason::Name));
    }
    or_blame(alloc, path, lay_link(world, path, target.as_str()))
}

// How many bytes are read and written next.
fn next_size(left: u64) -> usize
    requires { 0 < left }
    ensures some { 0 < result }
    ensures within { result ≤ left }
    ensures piece { result ≤ 65536 }
{
    if left > PIECE {
        PIECE as usize
    } else {
        left as usize
    }
}

// A file of the next bytes, so many, in place of what stands at a path.
fn lay_kept_contents<W: World, O: Origin>(
    alloc: Global,
    world: &mut W,
    source: &mut KeptBytes<O>,
    path: &Path,
    exec: bool,
    len: u64,
) -> Result<(), StoreFault>
    requires apart { is_within path.now (O.state source.old.origin).path ≡ false }
    ensures leaves { Leaves path.now (O.state source.old.origin) (seen W.World world.old)
        result (O.state source.new.origin) (seen W.World world.new) }
    ensures lays { (bytes rest : Seq ℕ) → length bytes ≡ len → Lays (bytes ++ rest) rest
        (node_laid (File exec bytes) path.now) (way_to path.now) []
        (source_seen O.state source.old) (seen W.World world.old)
        result (source_seen O.state source.new) (seen W.World world.new) }
    ensures partly { (bytes rest : Seq ℕ) → length bytes ≡ len
        → LaysPartly path.now (items_of (File exec bytes) path.now) (bytes ++ rest) (way_to path.now)
        (source_seen O.state source.old) (seen W.World world.old) (seen W.World world.new) }
    ensures takes { OnOk result (TakesContents exec len path.now
        (source_seen O.state source.old) (seen W.World world.old)
        (source_seen O.state source.new) (seen W.World world.new)) }
{
    or_blame(alloc, path, lay_file(world, path, exec, &[]))?;
    let mut left = len;
    while left > 0 {
        let size = next_size(left);
        let piece = source.field(alloc, world, size)?;
        or_blame(alloc, path, world.append(path, piece.as_slice()))?;
        left -= size as u64;
    }
    Ok(())
}

// A file in place of what stands at a path.
fn lay_kept_file<W: World, O: Origin>(
    alloc: Global,
    world: &mut W,
    source: &mut KeptBytes<O>,
    path: &Path,
) -> Result<(), StoreFault>
    requires apart { is_within path.now (O.state source.old.origin).path ≡ false }
    ensures leaves { Leaves path.now (O.state source.old.origin) (seen W.World world.old)
        result (O.state source.new.origin) (seen W.World world.new) }
    ensures lays { (exec : Bool) (bytes rest : Seq ℕ) → Lays
        ((if exec then 1 else 0) ∷ (to_be_bytes w64 (length bytes) ++ (bytes ++ rest))) rest
        (node_laid (File exec bytes) path.now) (way_to path.now) []
        (source_seen O.state source.old) (seen W.World world.old)
        result (source_seen O.state source.new) (seen W.World world.new) }
    ensures partly { (exec : Bool) (bytes rest : Seq ℕ)
        → LaysPartly path.now (items_of (File exec bytes) path.now)
        ((if exec then 1 else 0) ∷ (to_be_bytes w64 (length bytes) ++ (bytes ++ rest))) (way_to path.now)
        (source_seen O.state source.old) (seen W.World world.old) (seen W.World world.new) }
    ensures takes { OnOk result (TakesFile path.now
        (source_seen O.state source.old) (seen W.World world.old)
        (source_seen O.state source.new) (seen W.World world.new)) }
{
    let bit = source.byte(alloc, world)?;
    if bit > 1 {
        return Err(source.broken(Reason::Exec));
    }
    let head = source.field(alloc, world, 8)?;
    let len = u64_of(head.as_slice());
    lay_kept_contents(alloc, world, source, path, bit == 1, len)
}

#[cycle(lay_kept)]
fn lay_kept_node<W: World, O: Origin>(
    alloc: Global,
    world: &mut W,
    source: &mut KeptBytes<O>,
    path: &Path,
    depth: usize,
) -> Result<(), StoreFault>
    requires apart { is_within path.now (O.state source.old.origin).path ≡ false }
    requires deep { depth ≤ 64 }
    requires short { length path.now + 256 * (64 - depth) ≤ 32768 }
    ensures leaves { Leaves path.now (O.state source.old.origin) (seen W.World world.old)
        result (O.state source.new.origin) (seen W.World world.new) }
    ensures lays { (node : Node) (rest : Seq ℕ) → fits node depth ≡ true
        → Lays (node_bytes node ++ rest) rest (node_laid node path.now) (way_to path.now) []
        (source_seen O.state source.old) (seen W.World world.old)
        result (source_seen O.state source.new) (seen W.World world.new) }
    ensures partly { (node : Node) (rest : Seq ℕ) → fits node depth ≡ true
        → LaysPartly path.now (items_of node path.now) (node_bytes node ++ rest) (way_to path.now)
        (source_seen O.state source.old) (seen W.World world.old) (seen W.World world.new) }
    ensures takes { OnOk result (TakesNode depth (λ node. node_laid node path.now)
        (source_seen O.state source.old) (seen W.World world.old)
        (source_seen O.state source.new) (seen W.World world.new)) }
{
    match source.byte(alloc, world)? {
        b'D' => lay_kept_folder(alloc, world, source, path, depth),
        b'F' => lay_kept_file(alloc, world, source, path),
        b'L' => lay_kept_link(alloc, world, source, path),
        _ => Err(source.broken(Reason::Tag)),
    }
}

#[cycle(lay_kept)]
fn lay_kept_folder<W: World, O: Origin>(
    alloc: Global,
    world: &mut W,
    source: &mut KeptBytes<O>,
    path: &Path,
    depth: usize,
) -> Result<(), StoreFault>
    requires apart { is_within path.now (O.state source.old.origin).path ≡ false }
    requires deep { depth ≤ 64 }
    requires short { length path.now + 256 * (64 - depth) ≤ 32768 }
    ensures leaves { Leaves path.now (O.state source.old.origin) (seen W.World world.old)
        result (O.state source.new.origin) (seen W.World world.new) }
    ensures lays { (all : Seq Named) (rest : Seq ℕ) → fits (Folder all) depth ≡ true
        → Lays (to_be_bytes w32 (length all) ++ (entries_bytes all ++ rest)) rest (node_laid (Folder all) path.now)
        (way_to path.now) [] (source_seen O.state source.old) (seen W.World world.old)
        result (source_seen O.state source.new) (seen W.World world.new) }
    ensures partly { (all : Seq Named) (rest : Seq ℕ) → fits (Folder all) depth ≡ true
        → LaysPartly path.now (items_of (Folder all) path.now)
        (to_be_bytes w32 (length all) ++ (entries_bytes all ++ rest)) (way_to path.now)
        (source_seen O.state source.old) (seen W.World world.old) (seen W.World world.new) }
    ensures takes { OnOk result (TakesFolder depth path.now
        (source_seen O.state source.old) (seen W.World world.old)
        (source_seen O.state source.new) (seen W.World world.new)) }
{
    let head = source.field(alloc, world, 4)?;
    let count = u32_of(head.as_slice());
    or_blame(alloc, path, lay_folder(world, path))?;
    lay_kept_entries(alloc, world, source, path, count, depth + 1)
}

#[cycle(lay_kept)]
fn lay_kept_entries<W: World, O: Origin>(
    alloc: Global,
    world: &mut W,
    source: &mut KeptBytes<O>,
    path: &Path,
    count: u32,
    depth: usize,
) -> Result<(), StoreFault>
    requires apart { is_within path.now (O.state source.old.origin).path ≡ false }
    requires deep { depth ≤ 65 }
    requires short { length path.now + 256 * (65 - depth) ≤ 32768 }
    ensures leaves { Leaves path.now (O.state source.old.origin) (seen W.World world.old)
        result (O.state source.new.origin) (seen W.World world.new) }
    ensures lays { (all : Seq Named) (rest : Seq ℕ) → length all ≡ count → entries_fit None all depth ≡ true
        → Lays (entries_bytes all ++ rest) rest (entries_laid all path.now) (way_into path.now) (way_into path.now)
        (source_seen O.state source.old) (seen W.World world.old)
        result (source_seen O.state source.new) (seen W.World world.new) }
    ensures partly { (all : Seq Named) (rest : Seq ℕ) → length all ≡ count → entries_fit None all depth ≡ true
        → LaysPartly path.now (items_of (Folder all) path.now) (entries_bytes all ++ rest) (way_into path.now)
        (source_seen O.state source.old) (seen W.World world.old) (seen W.World world.new) }
    ensures takes { OnOk result (TakesEntries count depth path.now
        (source_seen O.state source.old) (seen W.World world.old)
        (source_seen O.state source.new) (seen W.World world.new)) }
{
    let mut last = None;
    let mut left = count;
    while left > 0 {
        let name = lay_kept_entry(alloc, world, source, path, &last, depth)?;
        last = Some(name);
        left -= 1;
    }
    Ok(())
}

// Whether a name may stand behind the last one of its folder.
fn follows(last: &Option<Text>, name: &Text) -> bool
    ensures { result ≡ follows last.now name.now }
{
    match last {
        None => true,
        Some(last) => matches!(
            last.as_str().as_bytes().cmp(name.as_str().as_bytes()),
            Ordering::Less
        ),
    }
}

// The next entry, whose name is returned.
#[cycle(lay_kept)]
fn lay_kept_entry<W: World, O: Origin>(
    alloc: Global,
    world: &mut W,
    source: &mut KeptBytes<O>,
    folder: &Path,
    last: &Option<Text>,
    depth: usize,
) -> Result<Text, StoreFault>
    requires apart { is_within folder.now (O.state source.old.origin).path ≡ false }
    requires deep { depth ≤ 65 }
    requires short { length folder.now + 256 * (65 - depth) ≤ 32768 }
    ensures leaves { Leaves folder.now (O.state source.old.origin) (seen W.World world.old)
        result (O.state source.new.origin) (seen W.World world.new) }
    ensures lays { (entry : Named) (rest : Seq ℕ) → name_fits last.now entry.name ≡ true
        → fits entry.node depth ≡ true
        → Does (λ name. name ≡ entry.name) (entry_bytes entry ++ rest) rest (entry_laid entry folder.now)
        (way_into folder.now) (way_into folder.now)
        (source_seen O.state source.old) (seen W.World world.old)
        result (source_seen O.state source.new) (seen W.World world.new) }
    ensures partly { (entry : Named) (rest : Seq ℕ) → name_fits last.now entry.name ≡ true
        → fits entry.node depth ≡ true
        → LaysPartly folder.now (folder_at folder.now ++ items_of entry.node (joined folder.now entry.name))
        (entry_bytes entry ++ rest) (way_into folder.now)
        (source_seen O.state source.old) (seen W.World world.old) (seen W.World world.new) }
    ensures takes { IfOk result (λ name. TakesEntry last.now depth folder.now name
        (source_seen O.state source.old) (seen W.World world.old)
        (source_seen O.state source.new) (seen W.World world.new)) }
{
    if depth > MAX_DEPTH {
        return Err(source.broken(Reason::Deep));
    }
    // The proof takes from this call what each path keeps to.
    let _folder = folder.as_str();
    let name = source.name(alloc, world)?;
    if !follows(last, &name) {
        return Err(source.broken(Reason::Order));
    }
    let path = folder.below(alloc, name.as_str())?;
    lay_kept_node(alloc, world, source, &path, depth)?;
    Ok(name)
}

// A node at the end of a way below a folder, with folders on it.
fn lay_kept_under<W: World, O: Origin>(
    alloc: Global,
    world: &mut W,
    source: &mut KeptBytes<O>,
    folder: &Path,
    way: &str,
) -> Result<(), StoreFault>
    requires apart { is_within folder.now (O.state source.old.origin).path ≡ false }
    requires parts { IsTrue (list_all is_part (way_parts way.now)) }
    requires short { length folder.now + length way.now ≤ 16383 }
    ensures leaves { Leaves folder.now (O.state source.old.origin) (seen W.World world.old)
        result (O.state source.new.origin) (seen W.World world.new) }
    ensures lays { (node : Node) (rest : Seq ℕ) → fits node 0 ≡ true
        → Lays (node_bytes node ++ rest) rest (laid_under node (way_parts way.now) folder.now) (way_to folder.now) []
        (source_seen O.state source.old) (seen W.World world.old)
        result (source_seen O.state source.new) (seen W.World world.new) }
    ensures partly { (node : Node) (rest : Seq ℕ) → fits node 0 ≡ true
        → LaysPartly folder.now (items_under node (way_parts way.now) folder.now) (node_bytes node ++ rest)
        (way_to folder.now) (source_seen O.state source.old) (seen W.World world.old) (seen W.World world.new) }
    ensures takes { OnOk result (TakesNode 0 (λ node. laid_under node (way_parts way.now) folder.now)
        (source_seen O.state source.old) (seen W.World world.old)
        (source_seen O.state source.new) (seen W.World world.new)) }
{
    // The proof takes from this call what each path keeps to.
    let _folder = folder.as_str();
    or_blame(alloc, folder, lay_folder(world, folder))?;
    match next_part(way) {
        Some((part, rest)) => {
            let path = folder.below(alloc, part)?;
            lay_kept_under(alloc, world, source, &path, rest)
        }
        None => {
            let path = folder.below(alloc, way)?;
            lay_kept_node(alloc, world, source, &path, 0)
        }
    }
}

// A node at a place under a folder.
fn lay_kept_at<W: World, O: Origin>(
    alloc: Global,
    world: &mut W,
    source: &mut KeptBytes<O>,
    root: &Path,
    place: &Path,
) -> Result<(), StoreFault>
    requires apart { is_within root.now (O.state source.old.origin).path ≡ false }
    requires root { length root.now ≤ 8192 }
    requires place { length place.now ≤ 8192 }
    ensures leaves { Leaves root.now (O.state source.old.origin) (seen W.World world.old)
        result (O.state source.new.origin) (seen W.World world.new) }
    ensures lays { (node : Node) (rest : Seq ℕ) → fits node 0 ≡ true
        → Lays (node_bytes node ++ rest) rest (laid_under node (parts_of place.now) root.now) (way_to root.now) []
        (source_seen O.state source.old) (seen W.World world.old)
        result (source_seen O.state source.new) (seen W.World world.new) }
    ensures names { IsTrue (list_all is_part (parts_of place.now)) }
    ensures partly { (node : Node) (rest : Seq ℕ) → fits node 0 ≡ true
        → LaysPartly root.now (items_under node (parts_of place.now) root.now) (node_bytes node ++ rest)
        (way_to root.now) (source_seen O.state source.old) (seen W.World world.old) (seen W.World world.new) }
    ensures takes { OnOk result (TakesNode 0 (λ node. laid_under node (parts_of place.now) root.now)
        (source_seen O.state source.old) (seen W.World world.old)
        (source_seen O.state source.new) (seen W.World world.new)) }
{
    match way_to(place) {
        Some(way) => lay_kept_under(alloc, world, source, root, way),
        None => lay_kept_node(alloc, world, source, root, 0),
    }
}

// Lays the tree whose bytes lie ahead at a place under a folder, which is made.
fn lay_ahead<W: World, O: Origin>(
    alloc: Global,
    world: &mut W,
    source: &mut KeptBytes<O>,
    root: &Path,
    place: &Path,
) -> Result<(), StoreFault>
    requires apart { is_within root.now (O.state source.old.origin).path ≡ false }
    requires root { length root.now ≤ 8192 }
    requires place { length place.now ≤ 8192 }
    ensures leaves { Leaves root.now (O.state source.old.origin) (seen W.World world.old)
        result (O.state source.new.origin) (seen W.World world.new) }
    ensures lays { (tree : Node) → fits tree 0 ≡ true
        → Ahead (source_seen O.state source.old) (W.tree world.old) (node_bytes tree)
        → LaysTree root.now place.now tree (seen W.World world.old) result (seen W.World world.new) }
    ensures ended { (tree : Node) → fits tree 0 ≡ true
        → Ahead (source_seen O.state source.old) (W.tree world.old) (node_bytes tree)
        → OnOk result (Ahead (source_seen O.state source.new) (W.tree world.new) []) }
    ensures partly { (tree : Node) → fits tree 0 ≡ true
        → Ahead (source_seen O.state source.old) (W.tree world.old) (node_bytes tree)
        → LaidPartly root.now (items_placed root.now place.now tree) (W.tree world.old) (W.tree world.new) }
    ensures takes { OnOk result (TakesNode 0 (λ tree. tree_laid root.now place.now tree)
        (source_seen O.state source.old) (seen W.World world.old)
        (source_seen O.state source.new) (seen W.World world.new)) }
{
    or_blame(alloc, root, world.make_folder(root))?;
    lay_kept_at(alloc, world, source, root, place)
}

/// Lays the tree whose bytes lie ahead at a place under a folder, which is made, and then sees that all its bytes have
/// the digest.
pub(crate) fn lay_kept<W: World, O: Origin>(
    alloc: Global,
    world: &mut W,
    source: &mut KeptBytes<O>,
    root: &Path,
    place: &Path,
) -> Result<(), StoreFault>
    requires apart { is_within root.now (O.state source.old.origin).path ≡ false }
    requires root { length root.now ≤ 8192 }
    requires place { length place.now ≤ 8192 }
    ensures leaves { Leaves root.now (O.state source.old.origin) (seen W.World world.old)
        result (O.state source.new.origin) (seen W.World world.new) }
    ensures lays { (tree : Node) → fits tree 0 ≡ true
        → Ahead (source_seen O.state source.old) (W.tree world.old) (node_bytes tree)
        → LaysTree root.now place.now tree (seen W.World world.old) result (seen W.World world.new) }
    ensures partly { (tree : Node) → fits tree 0 ≡ true
        → Ahead (source_seen O.state source.old) (W.tree world.old) (node_bytes tree)
        → LaidPartly root.now (items_placed root.now place.now tree) (W.tree world.old) (W.tree world.new) }
    ensures laid { OnOk result (LaysTaken (tree_laid root.now place.now) (source_seen O.state source.old)
        (W.tree world.old) (W.tree world.new)) }
{
    lay_ahead(alloc, world, source, root, place)?;
    source.end()
}
