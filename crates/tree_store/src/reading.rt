// Reading the tree of a folder.
ghost use Rattle.std.specs.Prelude.{◌≡◌, ◌≤◌, ◌+◌, ◌*◌, ◌-◌, ◌<◌, ◌++◌, ◌∷◌, [], IfErr, IfOk, IfSome, IsTrue, OnOk};
ghost use Rattle.std.specs.Prelude.{length, Ok, Err, Some, None, ℕ, true};
ghost use Rattle.cnb_world.specs.Calls.{AreNames};
ghost use Rattle.cnb_world.specs.Listing.{names_in};
ghost use Rattle.cnb_world.specs.Path.{is_part, joined};
ghost use Rattle.cnb_world.specs.Tree.{Lists, item_at, kind_of, target_of};
ghost use Rattle.cnb_world.specs.declared.world.Kind.TheVariants as kind;
ghost use Rattle.tree_canon.specs.Fits.{entries_fit};
ghost use Rattle.tree_canon.specs.Names.{is_name, is_target};
ghost use Rattle.tree_canon.specs.Spelling.{limit, entries_bytes};
ghost use Rattle.tree_canon.specs.declared.node.Node.TheVariants.{Link};
ghost use Rattle.tree_store.specs.Writing.{sized_as};
ghost use Rattle.steps.specs.Causes.{CountsFiles, IsAnswer};
ghost use Rattle.steps.specs.Outside.{seen};
ghost use Rattle.steps.specs.Reading.{LeavesUnchanged};
ghost use Rattle.tree_store.specs.Answers.{BlamesAt, BlamesWithin, is_free, cause_of};
ghost use Rattle.tree_store.specs.Matching.{Matches};
ghost use Rattle.tree_store.specs.Steps.{reads_tree};
ghost use Rattle.tree_store.specs.Reading.{room, link_of, node_at, node_of, in_order, tree_in, FitsFrom};

use crate::fault::{StoreFault, blamed, odd};
use cnb_world::{Kind, LimitKind, List, Memory, Path, Text, World};
use std::alloc::Global;
use tree_canon::{Named, Node, Tree, is_target};

/// The most bytes of a spelling.
const MAX_LENGTH: u64 = 1073741824;

/// How many levels of nodes a tree may have.
pub(crate) const MAX_LEVELS: u32 = 65;

// So many bytes of a spelling, where it has room for them.
pub(crate) fn room(size: u64, head: u64, len: u64) -> Result<u64, StoreFault>
    requires { size + head ≤ 4294967296 }
    ensures { result ≡ room (size + (head + len)) }
{
    if len > MAX_LENGTH || size + head > MAX_LENGTH - len {
        return Err(StoreFault::Limit(LimitKind::Tree));
    }
    Ok(size + head + len)
}

// What stands at a path.
#[tactic(auto, using(crate::proofs::Blames::blamed_last))]
pub(crate) fn kind_at<W: World>(
    alloc: Global,
    world: &mut W,
    path: &Path,
) -> Result<Kind, StoreFault>
    ensures told { IfSome (W.tree world.old) (λ files. IfOk result (λ k. k ≡ kind_of (item_at files path.now))) }
    ensures free { IfErr result (λ fault. IsTrue (is_free fault)) }
    ensures blames { IfErr result (BlamesAt path.now) }
    ensures leaves { LeavesUnchanged cause_of result (seen W.World world.old) (seen W.World world.new) }
    ensures misused { W.misused world.new ≡ W.misused world.old }
{
    match world.kind(path) {
        Ok(kind) => Ok(kind),
        Err(fault) => Err(blamed(alloc, path, fault)),
    }
}

// The names in a folder.
#[tactic(auto, using(crate::proofs::Blames::blamed_last))]
pub(crate) fn listed<W: World>(
    alloc: Global,
    world: &mut W,
    path: &Path,
) -> Result<List<Text>, StoreFault>
    requires kind { IfSome (W.tree world.old) (λ files. kind.Folder ≡ kind_of (item_at files path.now)) }
    ensures names { IfOk result AreNames }
    ensures told { IfSome (W.tree world.old) (λ files. IfOk result (λ names. names ≡ names_in files path.now)) }
    ensures lists { IfSome (W.tree world.old) (λ files. IfOk result (Lists files path.now)) }
    ensures free { IfErr result (λ fault. IsTrue (is_free fault)) }
    ensures blames { IfErr result (BlamesAt path.now) }
    ensures leaves { LeavesUnchanged cause_of result (seen W.World world.old) (seen W.World world.new) }
    ensures misused { W.misused world.new ≡ W.misused world.old }
{
    match world.list(path) {
        Ok(names) => Ok(names),
        Err(fault) => Err(blamed(alloc, path, fault)),
    }
}

// The file at a path as a node.
#[tactic(auto, using(crate::proofs::Blames::blamed_last))]
fn read_file<W: World>(
    alloc: Global,
    world: &mut W,
    path: &Path,
    exec: bool,
    len: u64,
    size: u64,
) -> Result<(Node, u64), StoreFault>
    requires size { size ≤ 1073742081 }
    requires kind { IfSome (W.tree world.old) (λ files. kind.File exec len ≡ kind_of (item_at files path.now)) }
    ensures reads { IfSome (W.tree world.old) (λ files. (below : _)
        → IsAnswer cause_of result (node_of files path.now below size (item_at files path.now))) }
    ensures fit { IfOk result (λ read. (depth : ℕ) → depth ≤ 64 → FitsFrom depth size read) }
    ensures few { IfOk result (λ read. read.1 ≤ limit) }
    ensures blames { IfErr result (BlamesAt path.now) }
    ensures leaves { LeavesUnchanged cause_of result (seen W.World world.old) (seen W.World world.new) }
    ensures misused { W.misused world.new ≡ W.misused world.old }
{
    let size = room(size, 10, len)?;
    match world.read(path, 0, len + 1) {
        Ok(bytes) => {
            if bytes.as_slice().len() as u64 != len {
                return Err(odd(alloc, path));
            }
            Ok((Node::File { exec, bytes }, size))
        }
        Err(fault) => Err(blamed(alloc, path, fault)),
    }
}

pub(crate) fn too_deep() -> StoreFault
    ensures { result ≡ StoreFault.Limit LimitKind.Depth }
{
    StoreFault::Limit(LimitKind::Depth)
}

// How many bytes the spelling has with a link, where so many levels may stand.
#[tactic(auto, using(crate::proofs::Fitting::link_fits))]
pub(crate) fn link_size(
    alloc: Global,
    path: &Path,
    target: &str,
    levels: u32,
    size: u64,
) -> Result<u64, StoreFault>
    requires levels { levels ≤ 65 }
    requires size { size ≤ 1073742081 }
    ensures reads { IsAnswer cause_of (sized_as (Link target.now) result) (link_of path.now levels size target.now) }
    ensures fit { IfOk result (λ total. FitsFrom (65 - levels) size (Link target.now, total)) }
    ensures few { IfOk result (λ total. total ≤ limit) }
    ensures target { OnOk result (IsTrue (is_target target.now)) }
    ensures blames { IfErr result (BlamesAt path.now) }
    ensures counts { (n : ℕ) → CountsFiles cause_of result n n }
{
    if !is_target(target.as_bytes()) {
        return Err(odd(alloc, path));
    }
    if levels == 0 {
        return Err(too_deep());
    }
    let size = room(size, 3, target.len() as u64)?;
    Ok(size)
}

// The target of the link at a path.
#[tactic(auto, using(crate::proofs::Blames::blamed_last))]
pub(crate) fn target_at<W: World>(
    alloc: Global,
    world: &mut W,
    path: &Path,
) -> Result<Text, StoreFault>
    requires { IfSome (W.tree world.old) (λ files. kind.Link ≡ kind_of (item_at files path.now)) }
    ensures told { IfSome (W.tree world.old) (λ files. IfOk result
        (λ target. target ≡ target_of (item_at files path.now))) }
    ensures free { IfErr result (λ fault. IsTrue (is_free fault)) }
    ensures blames { IfErr result (BlamesAt path.now) }
    ensures leaves { LeavesUnchanged cause_of result (seen W.World world.old) (seen W.World world.new) }
    ensures misused { W.misused world.new ≡ W.misused world.old }
{
    match world.read_link(path) {
        Ok(target) => Ok(target),
        Err(fault) => Err(blamed(alloc, path, fault)),
    }
}

// A link as a node, where so many levels may stand.
fn link_node(
    alloc: Global,
    path: &Path,
    target: Text,
    levels: u32,
    size: u64,
) -> Result<(Node, u64), StoreFault>
    requires levels { levels ≤ 65 }
    requires size { size ≤ 1073742081 }
    ensures reads { IsAnswer cause_of result (link_of path.now levels size target) }
    ensures fit { IfOk result (FitsFrom (65 - levels) size) }
    ensures few { IfOk result (λ read. read.1 ≤ limit) }
    ensures blames { IfErr result (BlamesAt path.now) }
    ensures counts { (n : ℕ) → CountsFiles cause_of result n n }
{
    let size = link_size(alloc, path, target.as_str(), levels, size)?;
    Ok((Node::Link { target }, size))
}

// The link at a path as a node, where so many levels may stand.
#[tactic(auto, using(crate::proofs::Nodes::linked, crate::proofs::Blames::blamed_last, crate::proofs::Blames::names_none))]
fn read_link<W: World>(
    alloc: Global,
    world: &mut W,
    path: &Path,
    levels: u32,
    size: u64,
) -> Result<(Node, u64), StoreFault>
    requires levels { levels ≤ 65 }
    requires size { size ≤ 1073742081 }
    requires kind { IfSome (W.tree world.old) (λ files. kind.Link ≡ kind_of (item_at files path.now)) }
    ensures reads { IfSome (W.tree world.old) (λ files. IsAnswer cause_of result (node_at levels files path.now size)) }
    ensures fit { IfOk result (FitsFrom (65 - levels) size) }
    ensures few { IfOk result (λ read. read.1 ≤ limit) }
    ensures blames { IfErr result (BlamesAt path.now) }
    ensures leaves { LeavesUnchanged cause_of result (seen W.World world.old) (seen W.World world.new) }
    ensures misused { W.misused world.new ≡ W.misused world.old }
{
    match world.read_link(path) {
        Ok(target) => link_node(alloc, path, target, levels, size),
        Err(fault) => Err(blamed(alloc, path, fault)),
    }
}

fn push_entry(entries: &mut Vec<Named>, name: Text, node: Node) -> Result<(), Memory>
    ensures { OnOk result (entries.new.items ≡ entries.old.items ++ record { name = name; node = node } ∷ []) }
{
    Ok(entries.push(Named { name, node })?)
}

// How many bytes stand before the node of an entry of this name.
pub(crate) fn head_length(name: &Text) -> u64
    requires { IsTrue (is_part name.now) }
    ensures length { result ≡ 2 + length name.now }
    ensures name { is_name name.now ≡ true }
{
    2 + name.as_str().as_bytes().len() as u64
}

// The node of a name in a folder.
#[cycle(read)]
#[tactic(auto, using(crate::proofs::Blames::part_within))]
fn read_entry<W: World>(
    alloc: Global,
    world: &mut W,
    folder: &Path,
    name: &Text,
    levels: u32,
    size: u64,
) -> Result<(Node, u64), StoreFault>
    requires part { IsTrue (is_part name.now) }
    requires levels { levels ≤ 64 }
    requires size { size ≤ limit }
    requires short { length folder.now + 256 * (levels + 1) ≤ 32768 }
    ensures reads { IfSome (W.tree world.old) (λ files. IsAnswer cause_of result
        (node_at levels files (joined folder.now name.now) (size + (2 + length name.now)))) }
    ensures name { is_name name.now ≡ true }
    ensures fit { IfOk result (FitsFrom (65 - levels) (size + (2 + length name.now))) }
    ensures few { IfOk result (λ read. read.1 ≤ limit) }
    ensures blames { IfErr result (BlamesWithin folder.now) }
    ensures leaves { LeavesUnchanged cause_of result (seen W.World world.old) (seen W.World world.new) }
    ensures misused { W.misused world.new ≡ W.misused world.old }
{
    let head = head_length(name);
    let path = folder.below(alloc, name.as_str())?;
    let read = read_node(alloc, world, &path, levels, size + head)?;
    Ok(read)
}

// The nodes of the names in a folder, in order.
#[cycle(read)]
fn read_entries<W: World>(
    alloc: Global,
    world: &mut W,
    folder: &Path,
    names: &[Text],
    levels: u32,
    size: u64,
) -> Result<(List<Named>, u64), StoreFault>
    requires names { AreNames names.now }
    requires levels { levels ≤ 64 }
    requires size { size ≤ limit }
    requires short { length folder.now + 256 * (levels + 1) ≤ 32768 }
    ensures reads { IfSome (W.tree world.old) (λ files. IsAnswer cause_of result
        (in_order (λ name. node_at levels files (joined folder.now name)) names.now size)) }
    ensures fit { IfOk result (λ read. entries_fit None read.0 (65 - levels) ≡ true) }
    ensures bytes { IfOk result (λ read. read.1 ≡ size + length (entries_bytes read.0)) }
    ensures few { IfOk result (λ read. read.1 ≤ limit) }
    ensures blames { IfErr result (BlamesWithin folder.now) }
    ensures leaves { LeavesUnchanged cause_of result (seen W.World world.old) (seen W.World world.new) }
    ensures misused { W.misused world.new ≡ W.misused world.old }
{
    let mut entries = Vec::new(alloc);
    let mut so_far = size;
    for name in names {
        let (node, now) = read_entry(alloc, world, folder, name, levels, so_far)?;
        push_entry(&mut entries, name.copy(alloc)?, node)?;
        so_far = now;
    }
    Ok((List::from_vec(entries), so_far))
}

// The folder at a path as a node, below which so many levels may stand.
#[cycle(read)]
#[tactic(auto, using(crate::proofs::Blames::at_within))]
fn read_folder<W: World>(
    alloc: Global,
    world: &mut W,
    path: &Path,
    levels: u32,
    size: u64,
) -> Result<(Node, u64), StoreFault>
    requires levels { levels ≤ 64 }
    requires size { size ≤ 1073742081 }
    requires short { length path.now + 256 * (levels + 1) ≤ 32768 }
    requires kind { IfSome (W.tree world.old) (λ files. kind.Folder ≡ kind_of (item_at files path.now)) }
    ensures reads { IfSome (W.tree world.old) (λ files. IsAnswer cause_of result
        (node_of files path.now (λ name. node_at levels files (joined path.now name)) size
        (item_at files path.now))) }
    ensures fit { IfOk result (FitsFrom (64 - levels) size) }
    ensures few { IfOk result (λ read. read.1 ≤ limit) }
    ensures blames { IfErr result (BlamesWithin path.now) }
    ensures leaves { LeavesUnchanged cause_of result (seen W.World world.old) (seen W.World world.new) }
    ensures misused { W.misused world.new ≡ W.misused world.old }
{
    let size = room(size, 5, 0)?;
    let names = listed(alloc, world, path)?;
    let (entries, size) = read_entries(alloc, world, path, names.as_slice(), levels, size)?;
    Ok((Node::Folder(entries), size))
}

// The node at a path, of which so many levels may stand.
#[cycle(read)]
#[tactic(auto, using(crate::proofs::Blames::at_within))]
fn read_node<W: World>(
    alloc: Global,
    world: &mut W,
    path: &Path,
    levels: u32,
    size: u64,
) -> Result<(Node, u64), StoreFault>
    requires levels { levels ≤ 65 }
    requires size { size ≤ 1073742081 }
    requires short { length path.now + 256 * levels ≤ 32768 }
    ensures reads { IfSome (W.tree world.old) (λ files. IsAnswer cause_of result (node_at levels files path.now size)) }
    ensures fit { IfOk result (FitsFrom (65 - levels) size) }
    ensures few { IfOk result (λ read. read.1 ≤ limit) }
    ensures blames { IfErr result (BlamesWithin path.now) }
    ensures leaves { LeavesUnchanged cause_of result (seen W.World world.old) (seen W.World world.new) }
    ensures misused { W.misused world.new ≡ W.misused world.old }
{
    match kind_at(alloc, world, path)? {
        Kind::Absent => Err(odd(alloc, path)),
        Kind::Odd => Err(odd(alloc, path)),
        Kind::Link => read_link(alloc, world, path, levels, size),
        Kind::File { exec, len } => {
            if levels == 0 {
                return Err(too_deep());
            }
            read_file(alloc, world, path, exec, len, size)
        }
        Kind::Folder => {
            if levels == 0 {
                return Err(too_deep());
            }
            read_folder(alloc, world, path, levels - 1, size)
        }
    }
}

// The tree of the folder at a path.
#[tactic(auto, using(crate::proofs::Blames::at_within))]
fn tree_at<W: World>(alloc: Global, world: &mut W, path: &Path) -> Result<Tree, StoreFault>
    requires { length path.now ≤ 8192 }
    ensures reads { IfSome (W.tree world.old) (λ files. IsAnswer cause_of result (tree_in path.now files)) }
    ensures blames { IfErr result (BlamesWithin path.now) }
    ensures leaves { LeavesUnchanged cause_of result (seen W.World world.old) (seen W.World world.new) }
    ensures misused { W.misused world.new ≡ W.misused world.old }
{
    match kind_at(alloc, world, path)? {
        Kind::Folder => {
            let (root, size) = read_folder(alloc, world, path, MAX_LEVELS - 1, 5)?;
            Ok(Tree::measured(root, size))
        }
        Kind::Absent => Err(odd(alloc, path)),
        Kind::File { exec: _, len: _ } => Err(odd(alloc, path)),
        Kind::Link => Err(odd(alloc, path)),
        Kind::Odd => Err(odd(alloc, path)),
    }
}

/// The tree of the folder at a path. `OddFile` is the first path, a folder before its names and names ascending, that
/// is neither a folder nor a file nor a link whose target a tree can have, or the path itself where it is no folder;
/// `Limit` is the first node that lies too deep, or with which the spelling is too long. Of these the first decides.
#[tactic(auto, using(crate::proofs::CallSteps::tree_read))]
pub fn read_tree<W: World>(alloc: Global, world: &mut W, path: &Path) -> Result<Tree, StoreFault>
    requires { length path.now ≤ 8192 }
    ensures steps { reads_tree path.now (seen W.World world.old) result (seen W.World world.new) }
    ensures paths { IfSome (W.tree world.old) (λ files. IfOk result (λ tree. Matches path.now tree files)) }
    ensures blames { IfErr result (BlamesWithin path.now) }
{
    tree_at(alloc, world, path)
}
