// The bytes of a tree that a cache holds.
ghost use Rattle.std.specs.Prelude.{◌<◌, length};
ghost use Rattle.tree_store.specs.Origin.{ReadsShelf};
ghost use Rattle.tree_store.specs.ShelfState.{Replaces, ShelfState, shelves_seen, state_of};

use crate::fault::StoreFault;
use crate::origin::Origin;
use crate::store::PIECE;
use cnb_world::{Bytes, Shelf, ShelfFault, World};
use std::alloc::Global;
use tree_canon::Digest;

fn read_shelf(
    shelf: &mut Box<dyn Shelf>,
    digest: &Digest,
    at: u64,
) -> Result<Option<Bytes>, ShelfFault>
    ensures { ReadsShelf digest.now at result
        (state_of (held shelf.old) (rows shelf.old) (faults shelf.old))
        (state_of (held shelf.new) (rows shelf.new) (faults shelf.new)) }
{
    shelf.read(digest.bytes(), at, PIECE)
}

fn read_numbered(
    shelves: &mut Vec<Box<dyn Shelf>>,
    number: usize,
    digest: &Digest,
    at: u64,
) -> Result<Option<Bytes>, ShelfFault>
    requires { number < length shelves.old.items }
    ensures { (before : ShelfState) × (after : ShelfState)
        × Replaces (shelves_seen ⟦<dyn Shelf as Shelf>⟧ shelves.old.items) number before after
        (shelves_seen ⟦<dyn Shelf as Shelf>⟧ shelves.new.items)
        × ReadsShelf digest.now at result before after }
{
    read_shelf(&mut shelves[number], digest, at)
}

/// What the cache of this number in a list holds under a digest. `failed` says that the cache gave no answer.
#[derive(Drop)]
pub(crate) struct HeldTree {
    pub(crate) shelves: Vec<Box<dyn Shelf>>,
    pub(crate) number: usize,
    pub(crate) failed: bool,
}

impl Origin for HeldTree {
    ghost use Rattle.std.specs.Prelude.{map};
    ghost use Rattle.tree_store.specs.Origin.{of_shelf};
    ghost use Rattle.tree_store.specs.ShelfState.{state_of};

    ghost state = { λ tree. of_shelf (map (λ b. state_of
        ((Shelf-box b).held b.value) ((Shelf-box b).rows b.value) ((Shelf-box b).faults b.value))
        tree.shelves.items) tree.number tree.failed };

    fn piece<W: World>(
        &mut self,
        alloc: Global,
        _world: &mut W,
        digest: &Digest,
        at: u64,
    ) -> Result<Bytes, StoreFault> {
        if self.number >= self.shelves.len() {
            return Err(StoreFault::Memory);
        }
        match read_numbered(&mut self.shelves, self.number, digest, at) {
            Ok(Some(piece)) => Ok(piece),
            Ok(None) => Ok(Bytes::from_vec(Vec::new(alloc))),
            Err(ShelfFault::Failed) => {
                self.failed = true;
                Err(StoreFault::Memory)
            }
            Err(ShelfFault::Memory) => Err(StoreFault::Memory),
        }
    }
}
