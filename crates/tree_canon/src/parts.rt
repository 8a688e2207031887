// Parts of a tree's spelling that are still to be written.
ghost use Rattle.std.specs.Prelude.{◌≡◌, ◌<◌, ◌++◌, [], IfOk, OnOk, length, vec_len};
ghost use Rattle.tree_canon.specs.Parts.{Writes, bytes_of_parts, part_bytes};
ghost use Rattle.tree_canon.specs.Spelling.{entries_bytes, file_head, folder_head, link_head, name_bytes, node_bytes};
ghost use Rattle.tree_canon.specs.Spelling.{spelling_of};
ghost use Rattle.tree_canon.specs.declared.node.Node.TheVariants.{Link};

use crate::node::{Named, Node};
use cnb_world::Memory;
use std::alloc::Global;

/// A part of a spelling: a node, entries of a folder, or bytes of a file.
#[derive(Drop)]
enum Part<'a> {
    Node(&'a Node),
    Entries(&'a [Named]),
    Bytes(&'a [u8]),
}

#[tactic(auto, using(crate::proofs::Equations::put_link_is))]
fn put_link(out: &mut Vec<u8>, target: &str) -> Result<(), Memory>
    ensures { OnOk result (out.new.items ≡ out.old.items ++ node_bytes (Link target.now)) }
{
    put_link_head(out, target.len())?;
    out.extend_from_slice(target.as_bytes())?;
    Ok(())
}

fn put_name(out: &mut Vec<u8>, name: &str) -> Result<(), Memory>
    ensures { OnOk result (out.new.items ≡ out.old.items ++ name_bytes name.now) }
{
    let bytes = name.as_bytes();
    out.extend_from_slice(&((bytes.len() % 65536) as u16).to_be_bytes())?;
    out.extend_from_slice(bytes)?;
    Ok(())
}

fn put_folder_head(out: &mut Vec<u8>, count: usize) -> Result<(), Memory>
    ensures { OnOk result (out.new.items ≡ out.old.items ++ folder_head count) }
{
    out.push(b'D')?;
    out.extend_from_slice(&((count % 4294967296) as u32).to_be_bytes())?;
    Ok(())
}

fn put_file_head(out: &mut Vec<u8>, exec: bool, size: usize) -> Result<(), Memory>
    ensures { OnOk result (out.new.items ≡ out.old.items ++ file_head exec size) }
{
    out.push(b'F')?;
    out.push(if exec { 1 } else { 0 })?;
    out.extend_from_slice(&(size as u64).to_be_bytes())?;
    Ok(())
}

fn put_link_head(out: &mut Vec<u8>, size: usize) -> Result<(), Memory>
    ensures { OnOk result (out.new.items ≡ out.old.items ++ link_head size) }
{
    out.push(b'L')?;
    out.extend_from_slice(&((size % 65536) as u16).to_be_bytes())?;
    Ok(())
}

// Writes a file's bytes, as many as there is room for.
fn write_bytes<'a>(
    parts: &mut Vec<Part<'a>>,
    out: &mut Vec<u8>,
    bytes: &'a [u8],
    room: usize,
) -> Result<(), Memory>
    requires { 0 < room }
    ensures { OnOk result (Writes bytes.now out.old.items parts.old.items out.new.items parts.new.items) }
{
    if bytes.len() <= room {
        out.extend_from_slice(bytes)?;
        return Ok(());
    }
    let (now, later) = bytes.split_at(room);
    out.extend_from_slice(now)?;
    parts.push(Part::Bytes(later))?;
    Ok(())
}

// Writes the name of the first entry.
fn write_entries<'a>(
    parts: &mut Vec<Part<'a>>,
    out: &mut Vec<u8>,
    entries: &'a [Named],
) -> Result<(), Memory>
    ensures { OnOk result (Writes (entries_bytes entries.now) out.old.items parts.old.items out.new.items parts.new.items) }
{
    match entries {
        [] => {}
        [first, rest @ ..] => {
            put_name(out, first.name.as_str())?;
            parts.push(Part::Entries(rest))?;
            parts.push(Part::Node(&first.node))?;
        }
    }
    Ok(())
}

// Writes what comes before a folder's entries or a file's bytes, or a link.
fn write_node<'a>(
    parts: &mut Vec<Part<'a>>,
    out: &mut Vec<u8>,
    node: &'a Node,
) -> Result<(), Memory>
    ensures { OnOk result (Writes (node_bytes node.now) out.old.items parts.old.items out.new.items parts.new.items) }
{
    match node {
        Node::Folder(all) => {
            put_folder_head(out, all.as_slice().len())?;
            parts.push(Part::Entries(all.as_slice()))?;
        }
        Node::File { exec, bytes } => {
            put_file_head(out, *exec, bytes.as_slice().len())?;
            parts.push(Part::Bytes(bytes.as_slice()))?;
        }
        Node::Link { target } => put_link(out, target.as_str())?,
    }
    Ok(())
}

// Writes the next part, or some of its bytes.
fn write_part<'a>(
    parts: &mut Vec<Part<'a>>,
    out: &mut Vec<u8>,
    part: Part<'a>,
    room: usize,
) -> Result<(), Memory>
    requires { 0 < room }
    ensures { OnOk result (Writes (part_bytes part.entry) out.old.items parts.old.items out.new.items parts.new.items) }
{
    match part {
        Part::Node(node) => write_node(parts, out, node),
        Part::Entries(entries) => write_entries(parts, out, entries),
        Part::Bytes(bytes) => write_bytes(parts, out, bytes, room),
    }
}

/// Parts that are still to be written, the next one last.
#[derive(Drop)]
pub(crate) struct Parts<'a> {
    items: Vec<Part<'a>>,
}

impl<'a> Parts<'a> {
    /// The parts of the spelling of the tree whose root is this node.
    pub(crate) fn new(alloc: Global, root: &'a Node) -> Result<Parts<'a>, Memory>
        ensures { IfOk result (λ parts. bytes_of_parts parts.items.items ≡ spelling_of root.now) }
    {
        let mut items = Vec::new(alloc);
        items.push(Part::Node(root))?;
        items.push(Part::Bytes(b"CNBT\x01"))?;
        Ok(Parts { items })
    }

    /// Writes parts, until so many bytes are written or all are.
    pub(crate) fn write(&mut self, out: &mut Vec<u8>, most: usize) -> Result<(), Memory>
        ensures all { OnOk result (out.new.items ++ bytes_of_parts self.new.items.items
            ≡ out.old.items ++ bytes_of_parts self.old.items.items) }
        ensures end { OnOk result (vec_len out.new < most → bytes_of_parts self.new.items.items ≡ []) }
    {
        while out.len() < most {
            let Some(part) = self.items.pop() else {
                break;
            };
            let room = most - out.len();
            write_part(&mut self.items, out, part, room)?;
        }
        Ok(())
    }
}
