// The trees, and how many bytes spell them.
ghost use Rattle.std.specs.Prelude.{◌≡◌, ◌<◌, ◌+◌, ◌*◌, IfOk};
ghost use Rattle.cnb_drill.specs.Trees.{contents, drill_file, drill_tree, file_name};

use cnb_world::{Bytes, List, Memory, Text};
use std::alloc::Global;
use tree_canon::{Named, Node, Tree, encode};

/// A file of a tree: 65,536 bytes times the tree's place from 1, each of which is its place from 0.
fn file(alloc: Global, tree: u8, place: u8) -> Result<Named, Memory>
    requires tree { tree < 4 }
    requires place { place < 16 }
    ensures { IfOk result (λ file. file ≡ drill_file (contents tree) (file_name place)) }
{
    let tens = place / 10;
    let ones = place % 10;
    let name = format!(in alloc; "f{tens}{ones}")?;
    let bytes = vec![in alloc; tree; 65536 * (tree as usize + 1)]?;
    Ok(Named {
        name: Text::from_string(name),
        node: Node::File {
            exec: false,
            bytes: Bytes::from_vec(bytes),
        },
    })
}

/// A folder of sixteen files.
fn tree(alloc: Global, tree: u8) -> Result<Tree, Memory>
    requires { tree < 4 }
    ensures { IfOk result (λ made. made ≡ drill_tree (contents tree)) }
{
    let mut files = List::new(alloc);
    for place in 0..16u8 {
        files.push(file(alloc, tree, place)?)?;
    }
    match Tree::new(Node::Folder(files)) {
        Ok(tree) => Ok(tree),
        Err(_) => unreachable!(),
    }
}

fn tree_bytes(alloc: Global, place: u8) -> Result<usize, Memory>
    requires { place < 4 }
    ensures { IfOk result (λ bytes. bytes ≡ 250 + 1048576 * (place + 1)) }
{
    let tree = tree(alloc, place)?;
    Ok(encode(alloc, &tree)?.as_slice().len())
}

/// How many bytes spell the four trees, which are made one after another.
pub(crate) fn layer_bytes(alloc: Global) -> Result<usize, Memory>
    ensures { IfOk result (λ bytes. bytes ≡ 10486760) }
{
    let first = tree_bytes(alloc, 0)?;
    let second = tree_bytes(alloc, 1)?;
    let third = tree_bytes(alloc, 2)?;
    let fourth = tree_bytes(alloc, 3)?;
    Ok(first + second + third + fourth)
}
