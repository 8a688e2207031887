// Which nodes have a spelling.
ghost use Rattle.std.specs.Prelude.{◌≡◌, ◌&&◌, ◌||◌, ◌==◌, not, ◌+◌, length, nat_le, if◌then◌else◌, None, Some};
ghost use Rattle.std.specs.Option.{option_copied};
ghost use Rattle.std.specs.Str.{is_utf8};
ghost use Rattle.tree_canon.specs.Names.{is_text, is_plain, is_dots, is_name, has_no_zero, is_target, is_below};
ghost use Rattle.tree_canon.specs.Names.{follows};
ghost use Rattle.tree_canon.specs.Fits.{fits, name_fits, entry_fits, entries_fit};

use crate::node::{Named, Node};
use std::cmp::Ordering;
use std::str;

/// How deep a node may lie.
pub const MAX_DEPTH: usize = 64;

/// The most bytes of a name.
pub const MAX_NAME: u16 = 255;

/// The most bytes of a target.
pub const MAX_TARGET: u16 = 4096;

fn is_text(most: u16, bytes: &[u8]) -> bool
    ensures { result ≡ is_text most bytes.now }
{
    !bytes.is_empty() && bytes.len() <= most as usize && is_utf8(bytes)
}

fn is_utf8(bytes: &[u8]) -> bool
    ensures { result ≡ is_utf8 bytes.now }
{
    match str::from_utf8(bytes) {
        Ok(_) => true,
        Err(_) => false,
    }
}

fn is_plain(bytes: &[u8]) -> bool
    ensures { result ≡ is_plain bytes.now }
{
    bytes.iter().all(|b| !(*b == 0) && !(*b == b'/'))
}

fn is_dots(bytes: &[u8]) -> bool
    ensures { result ≡ is_dots bytes.now }
{
    match bytes {
        [a] => *a == b'.',
        [a, b] => *a == b'.' && *b == b'.',
        _ => false,
    }
}

/// Whether bytes have the form of an entry's name.
pub fn is_name(bytes: &[u8]) -> bool
    ensures { result ≡ is_name bytes.now }
{
    is_text(MAX_NAME, bytes) && is_plain(bytes) && !is_dots(bytes)
}

fn has_no_zero(bytes: &[u8]) -> bool
    ensures { result ≡ has_no_zero bytes.now }
{
    bytes.iter().all(|b| !(*b == 0))
}

/// Whether bytes have the form of a link's target.
pub fn is_target(bytes: &[u8]) -> bool
    ensures { result ≡ is_target bytes.now }
{
    is_text(MAX_TARGET, bytes) && has_no_zero(bytes)
}

fn is_below(a: &[u8], b: &[u8]) -> bool
    ensures { result ≡ is_below a.now b.now }
{
    matches!(a.cmp(b), Ordering::Less)
}

/// Whether a name may stand behind the last one of its folder.
pub fn follows(last: Option<&[u8]>, name: &[u8]) -> bool
    ensures { result ≡ follows (option_copied last.entry) name.now }
{
    match last {
        None => true,
        Some(last) => is_below(last, name),
    }
}

/// Whether a node fits at a depth. It goes no deeper than 64.
#[cycle(fitting)]
pub fn node_fits(node: &Node, depth: usize) -> bool
    ensures { result ≡ fits node.now depth }
{
    if depth > MAX_DEPTH {
        return false;
    }
    match node {
        Node::Folder(all) => {
            let entries = all.as_slice();
            entries.len() <= u32::MAX as usize && entries_fit(entries, depth + 1)
        }
        Node::File { exec: _, bytes: _ } => true,
        Node::Link { target } => is_target(target.as_str().as_bytes()),
    }
}

#[cycle(fitting)]
fn entries_fit(entries: &[Named], depth: usize) -> bool
    ensures { result ≡ entries_fit None entries.now depth }
{
    let mut last: Option<&[u8]> = None;
    for entry in entries {
        if !entry_fits(last, entry, depth) {
            return false;
        }
        last = Some(entry.name.as_str().as_bytes());
    }
    true
}

#[cycle(fitting)]
fn entry_fits(last: Option<&[u8]>, entry: &Named, depth: usize) -> bool
    ensures { result ≡ (name_fits (option_copied last.entry) entry.now.name && fits entry.now.node depth) }
{
    let name = entry.name.as_str().as_bytes();
    is_name(name) && follows(last, name) && node_fits(&entry.node, depth)
}
