// Cutting an application: one walk, in which each entry goes to its slots. No call goes deeper than the tree does.
ghost use Rattle.std.specs.Prelude.{◌≡◌, ◌≤◌, ◌∷◌, [], true, length, IfOk, OnOk};
ghost use Rattle.tree_canon.specs.Fits.{is_tree};
ghost use Rattle.tree_canon.specs.declared.node.Node.TheVariants as nodes;
ghost use Rattle.app_slices.specs.Cutting.{AddsSlots, HasSlots, entry_at, all_at, node_at};
ghost use Rattle.app_slices.specs.Laying.{LaysAs, InOne};
ghost use Rattle.app_slices.specs.Listing.{AreOfSlots};
ghost use Rattle.app_slices.specs.Slices.{named, slices_of};
ghost use Rattle.app_slices.specs.Slots.{SlotsAlong};

use crate::pattern::Pattern;
use crate::slot::{below, slot_in};
use crate::slot_entries::{Parts, add, add_folders, named, with_own};
use crate::trees::trees_of;
use cnb_world::{Bytes, List, Memory, Text};
use std::alloc::Global;
use tree_canon::{Named, Node, Tree};

/// What the slots have of a folder, by its slot and path.
#[cycle(cutting)]
#[tactic(auto, using(crate::proofs::CutSlots::own_with))]
fn cut_folder(
    alloc: Global,
    slices: &[List<Pattern>],
    own: usize,
    path: &str,
    entries: &[Named],
) -> Result<Parts, Memory>
    requires { own ≤ length slices.now }
    ensures { IfOk result (λ parts. HasSlots slices.now own path.now entries.now parts) }
{
    let mut parts = with_own(alloc, own)?;
    cut_entries(alloc, slices, own, path, entries, &mut parts)?;
    Ok(parts)
}

/// Adds to the slots what they have of the entries of a folder.
#[cycle(cutting)]
#[tactic(auto, using(crate::proofs::CutSlots::in_turn))]
fn cut_entries(
    alloc: Global,
    slices: &[List<Pattern>],
    own: usize,
    path: &str,
    entries: &[Named],
    parts: &mut Parts,
) -> Result<(), Memory>
    requires { own ≤ length slices.now }
    ensures { OnOk result (AddsSlots slices.now (all_at slices.now own path.now entries.now) parts.old parts.new) }
{
    for entry in entries {
        cut_entry(alloc, slices, own, path, entry, parts)?;
    }
    Ok(())
}

/// Adds to the slots what they have of an entry, by the slot and path of its folder.
#[cycle(cutting)]
#[tactic(auto, using(crate::proofs::CutSlots::entry_is_node))]
fn cut_entry(
    alloc: Global,
    slices: &[List<Pattern>],
    above: usize,
    folder: &str,
    entry: &Named,
    parts: &mut Parts,
) -> Result<(), Memory>
    requires { above ≤ length slices.now }
    ensures { OnOk result (AddsSlots slices.now (entry_at slices.now above folder.now entry.now) parts.old parts.new) }
{
    let path = below(alloc, folder, entry.name.as_str())?;
    let own = slot_in(slices, above, path.as_str());
    cut_node(
        alloc,
        slices,
        own,
        path.as_str(),
        &entry.name,
        &entry.node,
        parts,
    )
}

/// Adds to the slots what they have of a node, by its own slot and path.
#[cycle(cutting)]
#[tactic(auto, using(crate::proofs::CutSlots::nodes_added))]
fn cut_node(
    alloc: Global,
    slices: &[List<Pattern>],
    own: usize,
    path: &str,
    name: &Text,
    node: &Node,
    parts: &mut Parts,
) -> Result<(), Memory>
    requires { own ≤ length slices.now }
    ensures { OnOk result
        (AddsSlots slices.now (node_at slices.now own path.now name.now node.now) parts.old parts.new) }
{
    match node {
        Node::Folder(all) => {
            let of_folder = cut_folder(alloc, slices, own, path, all.as_slice())?;
            add_folders(alloc, parts, name, of_folder)
        }
        Node::File { exec, bytes } => add(alloc, parts, own, copy_file(alloc, name, *exec, bytes)?),
        Node::Link { target } => add(alloc, parts, own, copy_link(alloc, name, target)?),
    }
}

fn copy_file(alloc: Global, name: &Text, exec: bool, bytes: &Bytes) -> Result<Named, Memory>
    ensures { IfOk result (λ entry. entry ≡ named name.now (nodes.File exec bytes.now)) }
{
    let bytes = Bytes::of(alloc, bytes.as_slice())?;
    named(alloc, name, Node::File { exec, bytes })
}

fn copy_link(alloc: Global, name: &Text, target: &Text) -> Result<Named, Memory>
    ensures { IfOk result (λ entry. entry ≡ named name.now (nodes.Link target.now)) }
{
    let target = target.copy(alloc)?;
    named(alloc, name, Node::Link { target })
}

/// Cuts an application into the trees of its slices: of each slice that has something, in order, and then of the rest.
/// A path is in the first slice of which a pattern matches it or a folder above it. Each tree has the folders above
/// what is in it, so laid one after another they give the application again.
pub fn cut(alloc: Global, app: &Tree, slices: &List<List<Pattern>>) -> Result<List<Tree>, Memory>
    // The slot of a path is that of the first slice that takes it. A slot's tree has its items and the folders above.
    ensures slots { SlotsAlong slices.now }
    ensures items { AreOfSlots slices.now app.now }
    // The trees are those of the slots that have something, in order.
    ensures trees { IfOk result (λ trees. trees ≡ slices_of slices.now app.now) }
    ensures once { IfOk result (λ trees. InOne trees app.now) }
    ensures lays { IfOk result (λ trees. LaysAs trees app.now) }
{
    cut_tree(alloc, app, slices)
}

fn cut_tree(alloc: Global, app: &Tree, slices: &List<List<Pattern>>) -> Result<List<Tree>, Memory>
    ensures tree { is_tree app.now ≡ true }
    ensures trees { IfOk result (λ trees. trees ≡ slices_of slices.now app.now) }
{
    match app.node() {
        Node::Folder(all) => cut_root(alloc, all.as_slice(), slices.as_slice()),
        Node::File { exec: _, bytes: _ } => whole(alloc, app),
        Node::Link { target: _ } => whole(alloc, app),
    }
}

fn cut_root(
    alloc: Global,
    entries: &[Named],
    slices: &[List<Pattern>],
) -> Result<List<Tree>, Memory>
    requires { is_tree (nodes.Folder entries.now) ≡ true }
    ensures { IfOk result (λ trees. trees ≡ slices_of slices.now (nodes.Folder entries.now)) }
{
    let rest = slices.len();
    let parts = cut_folder(alloc, slices, rest, "", entries)?;
    trees_of(alloc, rest, parts)
}

/// The application as the one tree.
fn whole(alloc: Global, app: &Tree) -> Result<List<Tree>, Memory>
    ensures { IfOk result (λ trees. trees ≡ app.now ∷ []) }
{
    let mut trees = List::new(alloc);
    trees.push(app.copy(alloc)?)?;
    Ok(trees)
}
