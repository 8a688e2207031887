// Trees: nodes that have a spelling.
ghost use Rattle.std.specs.Prelude.{◌≡◌, ◌+◌, ◌≤◌, ◌<◌, ◌^◌, if◌then◌else◌, length, Ok, Err, true, IfSome, IfOk};
ghost use Rattle.tree_canon.specs.Spelling.{limit, node_bytes, entry_bytes, spelling_of};
ghost use Rattle.tree_canon.specs.Fits.{is_tree};
ghost use Rattle.tree_canon.specs.Writing.{room, IsMeasured};
ghost use Rattle.tree_canon.specs.declared.fault.TreeFault.TheVariants as faults;

use crate::copying::copy_node;
use crate::fault::TreeFault;
use crate::fitting::node_fits;
use crate::node::{Named, Node};
use cnb_world::Memory;
use std::alloc::Global;
use std::marker::Model;

/// The most bytes of a spelling.
pub const MAX_LENGTH: u64 = 1073741824;

/// A node that has a spelling, and the length of its spelling. Contracts see the node.
#[derive(Drop)]
pub struct Tree {
    root: Node,
    length: u64,
}

impl Model for Tree {
    ghost use Rattle.tree_canon.specs.declared.node.Node.{Node};

    ghost Value = { Node };

    ghost use Rattle.std.specs.Coded.{codes};
    ghost use Rattle.tree_canon.specs.contracts.node.Node as nodes;

    ghost coded = { Prim.hlevel (codes, nodes.the_row.coded) };

    ghost use Rattle.tree_canon.specs.Writing.{IsMeasured};

    ghost view = { λ t. t.root };

    ghost invariant = { λ t. IsMeasured t.root t.length };
}

impl Tree {
    /// The tree with this root. A node that has no spelling isn't handed back.
    pub fn new(node: Node) -> Result<Tree, TreeFault>
        ensures { result ≡ (if is_tree node then Ok node else Err TreeFault.Unfit) }
    {
        if !node_fits(&node, 0) {
            return Err(TreeFault::Unfit);
        }
        match length_past(5, &node) {
            Some(length) => Ok(Tree { root: node, length }),
            None => Err(TreeFault::Unfit),
        }
    }

    /// The tree with this root, whose spelling was measured.
    pub fn measured(root: Node, size: u64) -> Tree
        requires { IsMeasured root size }
        ensures { result ≡ root }
    {
        Tree { root, length: size }
    }

    /// The same tree once more.
    pub fn copy(&self, alloc: Global) -> Result<Tree, Memory>
        ensures { IfOk result (λ copy. copy ≡ self.now) }
    {
        Ok(Tree {
            root: copy_node(alloc, &self.root)?,
            length: self.length,
        })
    }

    /// The root.
    pub fn node(&self) -> &Node
        ensures root { result.now ≡ self.now }
        ensures tree { is_tree self.now ≡ true }
    {
        &self.root
    }

    /// The number of bytes of the spelling.
    pub(crate) fn length(&self) -> u64
        ensures { result ≡ length (spelling_of self.now) }
    {
        self.length
    }
}

/// So many bytes and a node's, unless they are too many.
#[cycle(length)]
fn length_past(total: u64, node: &Node) -> Option<u64>
    ensures sum { result ≡ room (total + length (node_bytes node.now)) }
    ensures few { IfSome result (λ sum. sum ≤ limit) }
{
    match node {
        Node::Folder(all) => {
            let mut total = within(total, 5)?;
            for entry in all.as_slice() {
                total = entry_length_past(total, entry)?;
            }
            Some(total)
        }
        Node::File { exec: _, bytes } => within(within(total, 10)?, bytes.as_slice().len() as u64),
        Node::Link { target } => within(within(total, 3)?, target.as_str().len() as u64),
    }
}

#[cycle(length)]
fn entry_length_past(total: u64, entry: &Named) -> Option<u64>
    ensures sum { result ≡ room (total + length (entry_bytes entry.now)) }
    ensures few { IfSome result (λ sum. sum ≤ limit) }
{
    let total = within(within(total, 2)?, entry.name.as_str().len() as u64)?;
    length_past(total, &entry.node)
}

/// The sum, unless it is more than a spelling may have.
fn within(total: u64, more: u64) -> Option<u64>
    ensures sum { result ≡ room (total + more) }
    ensures few { IfSome result (λ sum. sum ≤ limit) }
{
    if more > MAX_LENGTH || total > MAX_LENGTH - more {
        return None;
    }
    Some(total + more)
}
