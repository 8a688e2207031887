// The trees of the slots, in order.
ghost use Rattle.std.specs.Prelude.{◌≡◌, ◌≤◌, ◌==◌, ◌++◌, ℕ, false, IfOk, OnOk};
ghost use Rattle.std.specs.Option.{option_map, option_to_list};
ghost use Rattle.tree_canon.specs.declared.node.Node.TheVariants as nodes;
ghost use Rattle.app_slices.specs.Cutting.{AreTree, entries_at, folders_of};

use crate::slot_entries::Parts;
use cnb_world::{List, Memory};
use std::alloc::Global;
use tree_canon::{Named, Node, Tree};

/// The tree of these entries.
fn tree_of(entries: List<Named>) -> Tree
    requires { AreTree (Some entries) }
    ensures { result ≡ nodes.Folder entries }
{
    match Tree::new(Node::Folder(entries)) {
        Ok(tree) => tree,
        Err(_) => unreachable!(),
    }
}

/// Moves the entries of a slot, if it has some, to the end of the trees.
fn move_tree(parts: &mut Parts, slot: usize, trees: &mut List<Tree>) -> Result<(), Memory>
    requires { AreTree (entries_at parts.old slot) }
    ensures trees { OnOk result (trees.new
        ≡ trees.old ++ option_to_list (option_map nodes.Folder (entries_at parts.old slot))) }
    ensures others { (k : ℕ) → (k == slot) ≡ false → entries_at parts.new k ≡ entries_at parts.old k }
{
    match parts.remove(&slot) {
        Some(entries) => trees.push(tree_of(entries)),
        None => Ok(()),
    }
}

/// The trees of those slots that have something; the rest's is the last.
#[tactic(auto, using(crate::proofs::CutSlots::slot_more))]
pub(crate) fn trees_of(alloc: Global, rest: usize, parts: Parts) -> Result<List<Tree>, Memory>
    requires { (k : ℕ) → k ≤ rest → AreTree (entries_at parts k) }
    ensures { IfOk result (λ trees. trees ≡ folders_of rest parts) }
{
    let mut parts = parts;
    let mut trees = List::new(alloc);
    for slot in 0..rest {
        move_tree(&mut parts, slot, &mut trees)?;
    }
    move_tree(&mut parts, rest, &mut trees)?;
    Ok(trees)
}
