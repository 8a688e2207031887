// Laying a tree over files.
ghost use Rattle.std.specs.Prelude.{◌≡◌, ◌<◌, ◌≤◌, ◌+◌, ◌-◌, ◌*◌, ◌∷◌, ◌&&◌, [], IfErr, IfSome, OnErr, OnOk, IsTrue};
ghost use Rattle.std.specs.Prelude.{is_some, length, not, true, false, None};
ghost use Rattle.std.specs.Option.{option_map, MatchOption};
ghost use Rattle.std.specs.List.{list_all};
ghost use Rattle.cnb_world.specs.Calls.{CountsFailed, MayMisuse, RemovesSome};
ghost use Rattle.cnb_world.specs.Path.{is_part, joined};
ghost use Rattle.cnb_world.specs.Tree.{can_create, folder_made, is_folder, is_root, item_at, kind_of, without};
ghost use Rattle.cnb_world.specs.declared.world.Item.TheVariants as item;
ghost use Rattle.tree_canon.specs.declared.node.Node.TheVariants.{Folder, File, Link};
ghost use Rattle.tree_canon.specs.Fits.{fits, entries_fit};
ghost use Rattle.tree_canon.specs.Names.{is_name};
ghost use Rattle.steps.specs.Causes.{CountsFiles};
ghost use Rattle.steps.specs.Outside.{seen};
ghost use Rattle.tree_store.specs.Answers.{BlamesWithin, is_free, cause_of};
ghost use Rattle.tree_store.specs.Around.{LeavesAround};
ghost use Rattle.tree_store.specs.Right.{AreFolders, way_into, way_to};
ghost use Rattle.tree_store.specs.Steps.{can_lay, lays_tree};
ghost use Rattle.tree_store.specs.Overlay.{IsOverlay, IsPlaced, can_stand, folder_at, items_of, items_under, parts_of};
ghost use Rattle.tree_store.specs.Overlay.{tree_laid, way_parts};
ghost use Rattle.tree_store.specs.Partly.{LaidPartly, items_placed};
ghost use Rattle.tree_store.specs.Laying.{file_set, laid_under, tree_steps, node_laid, entry_laid, entries_laid};
ghost use Rattle.tree_store.specs.Laying.{folder_by, folder_laid};

use crate::fault::{StoreFault, or_blame};
use cnb_world::{FileFault, Kind, Path, World};
use std::alloc::Global;
use tree_canon::{Named, Node, Tree};

/// How many bytes are written at once.
const PIECE: usize = 65536;

// The end of the piece that begins here.
pub(crate) fn piece_end(done: usize, len: usize) -> usize
    requires { done < len }
    ensures more { done < result }
    ensures within { result ≤ len }
    ensures piece { result - done ≤ 65536 }
{
    if len - done > PIECE {
        done + PIECE
    } else {
        len
    }
}

// A new file with these bytes, written in pieces.
fn write_file<W: World>(
    world: &mut W,
    path: &Path,
    exec: bool,
    bytes: &[u8],
) -> Result<(), FileFault>
    ensures ok { OnOk result (W.tree world.new ≡ option_map (file_set path.now exec bytes.now) (W.tree world.old)) }
    ensures files { CountsFailed result (W.file_faults world.old) (W.file_faults world.new) }
    ensures children { W.child_faults world.new ≡ W.child_faults world.old }
    ensures around { LeavesAround path.now (seen W.World world.old) (seen W.World world.new) }
    ensures partly { LaidPartly path.now ((path.now, item.File exec bytes.now) ∷ [])
        (W.tree world.old) (W.tree world.new) }
    ensures right { IfSome (W.tree world.old) (λ files. IsTrue (can_create files path.now))
        → W.misused world.new ≡ W.misused world.old }
{
    world.create(path, exec)?;
    let mut done = 0usize;
    while done < bytes.len() {
        let end = piece_end(done, bytes.len());
        world.append(path, &bytes[done..end])?;
        done = end;
    }
    Ok(())
}

// Takes away what stands at a path.
#[tactic(auto, using(crate::proofs::Around::removed, crate::proofs::Around::removed_right, crate::proofs::Around::not_root_where))]
fn clear<W: World>(world: &mut W, path: &Path) -> Result<(), FileFault>
    ensures ok { OnOk result (W.tree world.new ≡ option_map (without path.now) (W.tree world.old)) }
    ensures err { OnErr result (RemovesSome (W.tree world.old) (W.tree world.new) path.now) }
    ensures placed { IfSome (W.tree world.old) (λ _. OnOk result (is_root path.now ≡ false)) }
    ensures files { CountsFailed result (W.file_faults world.old) (W.file_faults world.new) }
    ensures children { W.child_faults world.new ≡ W.child_faults world.old }
    ensures around { LeavesAround path.now (seen W.World world.old) (seen W.World world.new) }
    ensures right { IfSome (W.tree world.old) (λ _. is_root path.now ≡ false)
        → W.misused world.new ≡ W.misused world.old }
{
    world.remove(path)
}

// A file in place of what stands at a path.
#[tactic(auto, using(crate::proofs::Laid::file_steps))]
pub(crate) fn lay_file<W: World>(
    world: &mut W,
    path: &Path,
    exec: bool,
    bytes: &[u8],
) -> Result<(), FileFault>
    ensures ok { OnOk result (W.tree world.new ≡ option_map (node_laid (File exec bytes.now) path.now)
        (W.tree world.old)) }
    ensures placed { IfSome (W.tree world.old) (λ _. OnOk result (is_root path.now ≡ false)) }
    ensures files { CountsFailed result (W.file_faults world.old) (W.file_faults world.new) }
    ensures children { W.child_faults world.new ≡ W.child_faults world.old }
    ensures around { LeavesAround path.now (seen W.World world.old) (seen W.World world.new) }
    ensures partly { LaidPartly path.now ((path.now, item.File exec bytes.now) ∷ [])
        (W.tree world.old) (W.tree world.new) }
    ensures right { IfSome (W.tree world.old) (λ _. is_root path.now ≡ false)
        → AreFolders (way_to path.now) (W.tree world.old) → W.misused world.new ≡ W.misused world.old }
{
    clear(world, path)?;
    write_file(world, path, exec, bytes)?;
    Ok(())
}

// A link in place of what stands at a path.
#[tactic(auto, using(crate::proofs::Laid::link_steps))]
pub(crate) fn lay_link<W: World>(world: &mut W, path: &Path, target: &str) -> Result<(), FileFault>
    ensures ok { OnOk result (W.tree world.new ≡ option_map (node_laid (Link target.now) path.now) (W.tree world.old)) }
    ensures placed { IfSome (W.tree world.old) (λ _. OnOk result (is_root path.now ≡ false)) }
    ensures files { CountsFailed result (W.file_faults world.old) (W.file_faults world.new) }
    ensures children { W.child_faults world.new ≡ W.child_faults world.old }
    ensures around { LeavesAround path.now (seen W.World world.old) (seen W.World world.new) }
    ensures partly { LaidPartly path.now ((path.now, item.Link target.now) ∷ [])
        (W.tree world.old) (W.tree world.new) }
    ensures right { IfSome (W.tree world.old) (λ _. is_root path.now ≡ false)
        → AreFolders (way_to path.now) (W.tree world.old) → W.misused world.new ≡ W.misused world.old }
{
    clear(world, path)?;
    world.make_link(path, target)?;
    Ok(())
}

// A folder in place of something else.
fn replace_by_folder<W: World>(world: &mut W, path: &Path) -> Result<(), FileFault>
    ensures ok { OnOk result (W.tree world.new ≡ option_map (folder_made path.now)
        (option_map (without path.now) (W.tree world.old))) }
    ensures files { CountsFailed result (W.file_faults world.old) (W.file_faults world.new) }
    ensures children { W.child_faults world.new ≡ W.child_faults world.old }
    ensures around { LeavesAround path.now (seen W.World world.old) (seen W.World world.new) }
    ensures partly { IfSome (W.tree world.old)
        (λ files. IsTrue (is_some (item_at files path.now) && not (is_folder (item_at files path.now))))
        → LaidPartly path.now (folder_at path.now) (W.tree world.old) (W.tree world.new) }
    ensures right { IfSome (W.tree world.old) (λ _. is_root path.now ≡ false)
        → AreFolders (way_to path.now) (W.tree world.old) → W.misused world.new ≡ W.misused world.old }
{
    clear(world, path)?;
    world.make_folder(path)?;
    Ok(())
}

// A folder over what is of this kind.
#[tactic(auto, using(crate::proofs::Around::made_so, crate::proofs::Right::link_not_root, crate::proofs::Laid::stays, crate::proofs::Laid::replaced))]
fn lay_folder_over<W: World>(world: &mut W, path: &Path, kind: Kind) -> Result<(), FileFault>
    ensures ok { OnOk result (W.tree world.new ≡ option_map (folder_by kind path.now) (W.tree world.old)) }
    ensures files { CountsFailed result (W.file_faults world.old) (W.file_faults world.new) }
    ensures children { W.child_faults world.new ≡ W.child_faults world.old }
    ensures around { LeavesAround path.now (seen W.World world.old) (seen W.World world.new) }
    ensures partly { IfSome (W.tree world.old) (λ files. kind ≡ kind_of (item_at files path.now))
        → LaidPartly path.now (folder_at path.now) (W.tree world.old) (W.tree world.new) }
    ensures right { IfSome (W.tree world.old) (λ files. kind ≡ kind_of (item_at files path.now))
        → AreFolders (way_to path.now) (W.tree world.old) → W.misused world.new ≡ W.misused world.old }
{
    match kind {
        Kind::Folder => Ok(()),
        Kind::Absent => world.make_folder(path),
        Kind::File { exec: _, len: _ } => replace_by_folder(world, path),
        Kind::Link => replace_by_folder(world, path),
        Kind::Odd => replace_by_folder(world, path),
    }
}

// A folder over what stands at a path.
#[tactic(auto, using(crate::proofs::Around::looked_at, crate::proofs::Around::onward, crate::proofs::Laid::folder_steps))]
pub(crate) fn lay_folder<W: World>(world: &mut W, path: &Path) -> Result<(), FileFault>
    ensures ok { OnOk result (W.tree world.new ≡ option_map (folder_laid path.now) (W.tree world.old)) }
    ensures files { CountsFailed result (W.file_faults world.old) (W.file_faults world.new) }
    ensures children { W.child_faults world.new ≡ W.child_faults world.old }
    ensures around { LeavesAround path.now (seen W.World world.old) (seen W.World world.new) }
    ensures partly { LaidPartly path.now (folder_at path.now) (W.tree world.old) (W.tree world.new) }
    ensures right { AreFolders (way_to path.now) (W.tree world.old) → W.misused world.new ≡ W.misused world.old }
{
    let kind = world.kind(path)?;
    lay_folder_over(world, path, kind)?;
    Ok(())
}

#[cycle(lay)]
#[tactic(auto, using(crate::proofs::Overlays::folder_placed, crate::proofs::Overlays::plain_placed, crate::proofs::Blames::at_within))]
fn lay_node<W: World>(
    alloc: Global,
    world: &mut W,
    path: &Path,
    node: &Node,
    depth: usize,
) -> Result<(), StoreFault>
    requires fits { fits node.now depth ≡ true }
    requires short { length path.now + 256 * (64 - depth) ≤ 32768 }
    ensures ok { OnOk result (W.tree world.new ≡ option_map (node_laid node.now path.now) (W.tree world.old)) }
    ensures placed { IfSome (W.tree world.old) (λ _. OnOk result (can_stand node.now path.now ≡ true)) }
    ensures free { IfErr result (λ fault. IsTrue (is_free fault)) }
    ensures blames { IfErr result (BlamesWithin path.now) }
    ensures files { CountsFiles cause_of result (W.file_faults world.old) (W.file_faults world.new) }
    ensures children { W.child_faults world.new ≡ W.child_faults world.old }
    ensures around { LeavesAround path.now (seen W.World world.old) (seen W.World world.new) }
    ensures partly { LaidPartly path.now (items_of node.now path.now) (W.tree world.old) (W.tree world.new) }
    ensures right { IfSome (W.tree world.old) (λ _. can_stand node.now path.now ≡ true)
        → AreFolders (way_to path.now) (W.tree world.old) → W.misused world.new ≡ W.misused world.old }
{
    match node {
        Node::Folder(all) => {
            or_blame(alloc, path, lay_folder(world, path))?;
            lay_entries(alloc, world, path, all.as_slice(), depth + 1)?;
            Ok(())
        }
        Node::File { exec, bytes } => {
            or_blame(alloc, path, lay_file(world, path, *exec, bytes.as_slice()))?;
            Ok(())
        }
        Node::Link { target } => {
            or_blame(alloc, path, lay_link(world, path, target.as_str()))?;
            Ok(())
        }
    }
}

#[cycle(lay)]
fn lay_entries<W: World>(
    alloc: Global,
    world: &mut W,
    path: &Path,
    entries: &[Named],
    depth: usize,
) -> Result<(), StoreFault>
    requires fits { entries_fit None entries.now depth ≡ true }
    requires short { length path.now + 256 * (65 - depth) ≤ 32768 }
    ensures ok { OnOk result (W.tree world.new ≡ option_map (entries_laid entries.now path.now) (W.tree world.old)) }
    ensures free { IfErr result (λ fault. IsTrue (is_free fault)) }
    ensures blames { IfErr result (BlamesWithin path.now) }
    ensures files { CountsFiles cause_of result (W.file_faults world.old) (W.file_faults world.new) }
    ensures children { W.child_faults world.new ≡ W.child_faults world.old }
    ensures around { LeavesAround path.now (seen W.World world.old) (seen W.World world.new) }
    ensures partly { LaidPartly path.now (items_of (Folder entries.now) path.now)
        (W.tree world.old) (W.tree world.new) }
    ensures right { AreFolders (way_into path.now) (W.tree world.old) → W.misused world.new ≡ W.misused world.old }
{
    for entry in entries {
        lay_entry(alloc, world, path, entry, depth)?;
    }
    Ok(())
}

#[cycle(lay)]
#[tactic(auto, using(crate::proofs::Blames::name_within))]
fn lay_entry<W: World>(
    alloc: Global,
    world: &mut W,
    folder: &Path,
    entry: &Named,
    depth: usize,
) -> Result<(), StoreFault>
    requires name { is_name entry.now.name ≡ true }
    requires fits { fits entry.now.node depth ≡ true }
    requires short { length folder.now + 256 * (65 - depth) ≤ 32768 }
    ensures ok { OnOk result (W.tree world.new ≡ option_map (entry_laid entry.now folder.now) (W.tree world.old)) }
    ensures free { IfErr result (λ fault. IsTrue (is_free fault)) }
    ensures blames { IfErr result (BlamesWithin folder.now) }
    ensures files { CountsFiles cause_of result (W.file_faults world.old) (W.file_faults world.new) }
    ensures children { W.child_faults world.new ≡ W.child_faults world.old }
    ensures around { LeavesAround (joined folder.now entry.now.name) (seen W.World world.old) (seen W.World world.new) }
    ensures partly { LaidPartly (joined folder.now entry.now.name)
        (items_of entry.now.node (joined folder.now entry.now.name)) (W.tree world.old) (W.tree world.new) }
    ensures right { AreFolders (way_into folder.now) (W.tree world.old) → W.misused world.new ≡ W.misused world.old }
{
    // The proof takes from this call what each path keeps to.
    let _folder = folder.as_str();
    let path = folder.below(alloc, entry.name.as_str())?;
    lay_node(alloc, world, &path, &entry.node, depth)?;
    Ok(())
}

// The first part of a way, and the way behind it.
pub(crate) fn next_part(way: &str) -> Option<(&str, &str)>
    ensures parts { MatchOption result (way_parts way.now ≡ way.now ∷ [])
        (λ cut. way_parts way.now ≡ cut.0.now ∷ way_parts cut.1.now) }
    ensures lengths { IfSome result (λ cut. length cut.0.now + (1 + length cut.1.now) ≡ length way.now) }
{
    way.split_once('/')
}

// A node at the end of a way below a folder, with folders on it.
#[tactic(auto, using(crate::proofs::Ways::under_step, crate::proofs::Ways::under_last, crate::proofs::Ways::part_ahead, crate::proofs::Ways::parts_behind, crate::proofs::Ways::last_part, crate::proofs::Ways::joined_short, crate::proofs::Blames::at_within, crate::proofs::Blames::part_within))]
fn lay_under<W: World>(
    alloc: Global,
    world: &mut W,
    folder: &Path,
    way: &str,
    node: &Node,
) -> Result<(), StoreFault>
    requires parts { IsTrue (list_all is_part (way_parts way.now)) }
    requires fits { fits node.now 0 ≡ true }
    requires short { length folder.now + length way.now ≤ 16383 }
    ensures ok { OnOk result (W.tree world.new ≡ option_map (laid_under node.now (way_parts way.now) folder.now)
        (W.tree world.old)) }
    ensures free { IfErr result (λ fault. IsTrue (is_free fault)) }
    ensures blames { IfErr result (BlamesWithin folder.now) }
    ensures files { CountsFiles cause_of result (W.file_faults world.old) (W.file_faults world.new) }
    ensures children { W.child_faults world.new ≡ W.child_faults world.old }
    ensures around { LeavesAround folder.now (seen W.World world.old) (seen W.World world.new) }
    ensures partly { LaidPartly folder.now (items_under node.now (way_parts way.now) folder.now)
        (W.tree world.old) (W.tree world.new) }
    ensures right { AreFolders (way_to folder.now) (W.tree world.old) → W.misused world.new ≡ W.misused world.old }
{
    // The proof takes from this call what each path keeps to.
    let _folder = folder.as_str();
    or_blame(alloc, folder, lay_folder(world, folder))?;
    match next_part(way) {
        Some((part, rest)) => {
            let path = folder.below(alloc, part)?;
            lay_under(alloc, world, &path, rest, node)?;
            Ok(())
        }
        None => {
            let path = folder.below(alloc, way)?;
            lay_node(alloc, world, &path, node, 0)?;
            Ok(())
        }
    }
}

// The way to a place below a folder; none where the place is the folder.
pub(crate) fn way_to(place: &Path) -> Option<&str>
    ensures parts { MatchOption result (parts_of place.now ≡ []) (λ way. parts_of place.now ≡ way_parts way.now) }
    ensures names { IsTrue (list_all is_part (parts_of place.now)) }
    ensures short { IfSome result (λ way. length way.now + 1 ≡ length place.now) }
{
    let way = &place.as_str()[1..];
    if way.is_empty() { None } else { Some(way) }
}

// A node at a place under a folder, which is made.
#[tactic(auto, using(crate::proofs::Around::made_so, crate::proofs::Ways::at_way, crate::proofs::Ways::at_root, crate::proofs::Blames::at_within))]
fn lay_at<W: World>(
    alloc: Global,
    world: &mut W,
    root: &Path,
    place: &Path,
    node: &Node,
) -> Result<(), StoreFault>
    requires fits { fits node.now 0 ≡ true }
    requires root { length root.now ≤ 8192 }
    requires place { length place.now ≤ 8192 }
    ensures ok { OnOk result (W.tree world.new ≡ option_map (tree_steps root.now place.now node.now)
        (W.tree world.old)) }
    ensures names { OnOk result (IsTrue (list_all is_part (parts_of place.now))) }
    ensures placed { IfSome (W.tree world.old) (λ _. OnOk result (IsPlaced node.now (parts_of place.now) root.now)) }
    ensures free { IfErr result (λ fault. IsTrue (is_free fault)) }
    ensures blames { IfErr result (BlamesWithin root.now) }
    ensures files { CountsFiles cause_of result (W.file_faults world.old) (W.file_faults world.new) }
    ensures children { W.child_faults world.new ≡ W.child_faults world.old }
    ensures around { LeavesAround root.now (seen W.World world.old) (seen W.World world.new) }
    ensures partly { LaidPartly root.now (items_placed root.now place.now node.now) (W.tree world.old) (W.tree world.new) }
    ensures right { MayMisuse (option_map (can_lay root.now place.now node.now) (W.tree world.old))
        (W.misused world.old) (W.misused world.new) }
{
    or_blame(alloc, root, world.make_folder(root))?;
    match way_to(place) {
        Some(way) => {
            lay_under(alloc, world, root, way, node)?;
            Ok(())
        }
        None => {
            lay_node(alloc, world, root, node, 0)?;
            Ok(())
        }
    }
}

/// Lays a tree at a place under a folder, which is made with those above it. The place is a path as seen from that
/// folder. A folder merges into a folder and takes the place of anything else, also on the way to the place; a file or
/// a link takes the place of whatever stands. No link is followed. After a refusal each path at the folder or below it has
/// what stood there, or a part of what the tree gives.
pub fn write_tree<W: World>(
    alloc: Global,
    world: &mut W,
    root: &Path,
    place: &Path,
    tree: &Tree,
) -> Result<(), StoreFault>
    requires root { length root.now ≤ 8192 }
    requires place { length place.now ≤ 8192 }
    ensures steps { lays_tree root.now place.now tree.now (seen W.World world.old) result (seen W.World world.new) }
    ensures overlay { OnOk result (IfSome (W.tree world.old) (λ old. IfSome (W.tree world.new)
        (IsOverlay (items_under tree.now (parts_of place.now) root.now) (folder_made root.now old)))) }
{
    lay_at(alloc, world, root, place, tree.node())
}
