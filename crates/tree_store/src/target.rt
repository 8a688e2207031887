// Where the bytes of a tree go.
ghost use Rattle.steps.specs.Outside.{seen};
ghost use Rattle.tree_store.specs.Target.{AppendsTo, TargetState};

use crate::fault::{StoreFault, or_blame};
use cnb_world::{Path, World};
use std::alloc::Global;

/// What takes the bytes of a tree, in pieces.
pub(crate) trait Target: Drop {
    /// What contracts see of it.
    ghost state: { Self → TargetState };

    /// Adds bytes.
    fn append<W: World>(
        &mut self,
        alloc: Global,
        world: &mut W,
        bytes: &[u8],
    ) -> Result<(), StoreFault>
        ensures { AppendsTo bytes.now (state self.old) (seen W.World world.old) result
            (state self.new) (seen W.World world.new) };
}

/// The file that is written before its digest is known.
#[derive(Drop)]
pub(crate) struct NewFile {
    pub(crate) path: Path,
}

impl Target for NewFile {
    ghost use Rattle.tree_store.specs.Writing.{to_file};

    ghost state = { to_file };

    fn append<W: World>(
        &mut self,
        alloc: Global,
        world: &mut W,
        bytes: &[u8],
    ) -> Result<(), StoreFault> {
        or_blame(alloc, &self.path, world.append(&self.path, bytes))
    }
}

/// Keeps nothing of the bytes: the writer's hash of them is all that is asked for.
#[derive(Drop)]
pub(crate) struct HashOnly;

impl Target for HashOnly {
    ghost use Rattle.std.specs.Prelude.{[]};
    ghost use Rattle.tree_store.specs.Target.{ToShelves};

    ghost state = { λ _. ToShelves [] [] [] };

    fn append<W: World>(
        &mut self,
        _alloc: Global,
        _world: &mut W,
        _bytes: &[u8],
    ) -> Result<(), StoreFault> {
        Ok(())
    }
}
