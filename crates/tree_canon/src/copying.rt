// Copying nodes. No call goes deeper than the node does.
ghost use Rattle.std.specs.Prelude.{◌≡◌, IfOk};

use crate::node::{Named, Node};
use cnb_world::{Bytes, List, Memory};
use std::alloc::Global;

/// A copy of a node.
#[cycle(copying)]
pub fn copy_node(alloc: Global, node: &Node) -> Result<Node, Memory>
    ensures { IfOk result (λ copy. copy ≡ node.now) }
{
    match node {
        Node::Folder(all) => Ok(Node::Folder(copy_entries(alloc, all.as_slice())?)),
        Node::File { exec, bytes } => Ok(Node::File {
            exec: *exec,
            bytes: Bytes::of(alloc, bytes.as_slice())?,
        }),
        Node::Link { target } => Ok(Node::Link {
            target: target.copy(alloc)?,
        }),
    }
}

#[cycle(copying)]
fn copy_entries(alloc: Global, entries: &[Named]) -> Result<List<Named>, Memory>
    ensures { IfOk result (λ copies. copies ≡ entries.now) }
{
    let mut copies = List::new(alloc);
    for entry in entries {
        copies.push(copy_entry(alloc, entry)?)?;
    }
    Ok(copies)
}

#[cycle(copying)]
fn copy_entry(alloc: Global, entry: &Named) -> Result<Named, Memory>
    ensures { IfOk result (λ copy. copy ≡ entry.now) }
{
    Ok(Named {
        name: entry.name.copy(alloc)?,
        node: copy_node(alloc, &entry.node)?,
    })
}
