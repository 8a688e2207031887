// Where the bytes of a tree are read from.
ghost use Rattle.steps.specs.Outside.{seen};
ghost use Rattle.tree_store.specs.Origin.{OriginState, ReadsPiece};

use crate::fault::StoreFault;
use crate::store::read_piece;
use cnb_world::{Bytes, Path, World};
use std::alloc::Global;
use tree_canon::Digest;

/// What the bytes of a tree are read from, in pieces.
pub(crate) trait Origin: Drop {
    /// What contracts see of it.
    ghost state: { Self → OriginState };

    /// The bytes of a digest from a place on, at most 65,536 of them.
    fn piece<W: World>(
        &mut self,
        alloc: Global,
        world: &mut W,
        digest: &Digest,
        at: u64,
    ) -> Result<Bytes, StoreFault>
        ensures { ReadsPiece (state self.old) digest.now at (seen W.World world.old) result
            (state self.new) (seen W.World world.new) };
}

/// The file of a tree.
#[derive(Drop)]
pub(crate) struct TreeFile {
    pub(crate) path: Path,
}

impl Origin for TreeFile {
    ghost use Rattle.tree_store.specs.Origin.{of_file};

    ghost state = { λ file. of_file file.path };

    fn piece<W: World>(
        &mut self,
        alloc: Global,
        world: &mut W,
        _digest: &Digest,
        at: u64,
    ) -> Result<Bytes, StoreFault> {
        read_piece(alloc, world, &self.path, at)
    }
}
