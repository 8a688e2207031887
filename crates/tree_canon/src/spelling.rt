// Writing the spelling of a tree.
ghost use Rattle.std.specs.Prelude.{◌≡◌, ◌++◌, ◌↔◌, [], ℕ, List, IfOk};
ghost use Rattle.tree_canon.specs.declared.node.Node.{Node};
ghost use Rattle.tree_canon.specs.Spelling.{spelling_of};
ghost use Rattle.tree_canon.specs.Division.{Spells};
ghost use Rattle.tree_canon.specs.Pieces.{bytes_left};

use crate::parts::Parts;
use crate::tree::Tree;
use cnb_world::{Bytes, Memory};
use std::alloc::Global;

/// The most bytes of a piece.
const PIECE: usize = 65536;

/// The most bytes that a node or a name has beside a file's contents: those of a link whose target has 4,096.
const HEAD: usize = 4099;

/// The bytes of a tree's spelling that are still to come. It holds none of them, but the way to them.
#[derive(Drop)]
pub struct TreePieces<'a> {
    parts: Parts<'a>,
}

impl<'a> TreePieces<'a> {
    /// All bytes of a tree's spelling.
    #[tactic(auto, unfolding(crate::specs::Pieces::bytes_left))]
    pub fn new(alloc: Global, tree: &'a Tree) -> Result<TreePieces<'a>, Memory>
        ensures { IfOk result (λ pieces. bytes_left pieces ≡ spelling_of tree.now) }
    {
        Ok(TreePieces {
            parts: Parts::new(alloc, tree.node())?,
        })
    }

    /// The next bytes, at most 65,536. There are none only where none are left.
    #[tactic(auto, unfolding(crate::specs::Pieces::bytes_left))]
    pub fn next(&mut self, alloc: Global) -> Result<Bytes, Memory>
        ensures next { IfOk result (λ piece. bytes_left self.old ≡ piece ++ bytes_left self.new) }
        ensures end { IfOk result (λ piece. piece ≡ [] → bytes_left self.new ≡ []) }
    {
        let mut piece = Vec::with_capacity(alloc, PIECE)?;
        self.parts.write(&mut piece, PIECE - HEAD)?;
        Ok(Bytes::from_vec(piece))
    }
}

/// The spelling of a tree, written in one pass into room that is taken first.
pub fn encode(alloc: Global, tree: &Tree) -> Result<Bytes, Memory>
    ensures spelled { IfOk result (λ bytes. Spells tree.now bytes) }
    // No other tree has these bytes, and this one has no others.
    ensures same { IfOk result (λ bytes. (other : Node) (spelling : List ℕ) → Spells other spelling
        → ((spelling ≡ bytes) ↔ (other ≡ tree.now))) }
{
    let most = tree.length() as usize;
    let mut out = Vec::with_capacity(alloc, most)?;
    Parts::new(alloc, tree.node())?.write(&mut out, most)?;
    Ok(Bytes::from_vec(out))
}
