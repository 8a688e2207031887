// Shelves that are given the bytes of a tree.
ghost use Rattle.std.specs.Prelude.{◌≡◌, ◌≤◌, ◌<◌, [], Bool, length, true};
ghost use Rattle.tree_store.specs.Receiving.{GivesAt, GivesEach, IsDone};
ghost use Rattle.tree_store.specs.ShelfState.{Replaces};
ghost use Rattle.tree_store.specs.Target.{Receiver, receiver_of, receivers_seen};
ghost use Rattle.tree_store.specs.declared.receivers.Giving.TheVariants.{Keep};

use crate::fault::StoreFault;
use crate::target::Target;
use cnb_world::{Memory, Shelf, ShelfFault, World};
use std::alloc::Global;
use tree_canon::Digest;

/// What is done on each shelf.
#[derive(Drop)]
pub(crate) enum Giving {
    Begin(Digest),
    Append,
    Keep,
    SetRows,
}

// Does it on one shelf, with these bytes, where they are called for.
fn give(shelf: &mut Box<dyn Shelf>, giving: &Giving, bytes: &[u8]) -> Result<(), ShelfFault>
    ensures { IsDone giving.now bytes.now result
        (receiver_of (held shelf.old) (rows shelf.old) (faults shelf.old) (begun shelf.old))
        (receiver_of (held shelf.new) (rows shelf.new) (faults shelf.new) (begun shelf.new)) }
{
    match giving {
        Giving::Begin(digest) => shelf.begin(digest.bytes()),
        Giving::Append => shelf.append(bytes),
        Giving::Keep => shelf.keep(),
        Giving::SetRows => shelf.set_rows(bytes),
    }
}

fn give_numbered(
    shelves: &mut Vec<Box<dyn Shelf>>,
    number: usize,
    giving: &Giving,
    bytes: &[u8],
) -> Result<(), ShelfFault>
    requires { number < length shelves.old.items }
    ensures { (before : Receiver) × (after : Receiver)
        × Replaces (receivers_seen ⟦<dyn Shelf as Shelf>⟧ shelves.old.items) number before after
        (receivers_seen ⟦<dyn Shelf as Shelf>⟧ shelves.new.items)
        × IsDone giving.now bytes.now result before after }
{
    give(&mut shelves[number], giving, bytes)
}

// Does it on the shelf of a number, unless that has failed, and marks it where it fails.
fn give_at(
    shelves: &mut Vec<Box<dyn Shelf>>,
    failed: &mut Vec<bool>,
    number: usize,
    giving: &Giving,
    bytes: &[u8],
) -> Result<(), Memory>
    requires shelf { number < length shelves.old.items }
    requires flag { number < length failed.old.items }
    ensures { GivesAt giving.now bytes.now number
        (receivers_seen ⟦<dyn Shelf as Shelf>⟧ shelves.old.items) failed.old.items result
        (receivers_seen ⟦<dyn Shelf as Shelf>⟧ shelves.new.items) failed.new.items }
{
    if failed[number] {
        return Ok(());
    }
    match give_numbered(shelves, number, giving, bytes) {
        Ok(()) => Ok(()),
        Err(ShelfFault::Failed) => {
            failed[number] = true;
            Ok(())
        }
        Err(ShelfFault::Memory) => Err(Memory),
    }
}

/// Does it on the first shelves of a list, which are as many as `failed` has entries, but those that have failed. One
/// that fails is marked.
pub(crate) fn give_each(
    shelves: &mut Vec<Box<dyn Shelf>>,
    failed: &mut Vec<bool>,
    giving: &Giving,
    bytes: &[u8],
) -> Result<(), Memory>
    requires { length failed.old.items ≤ length shelves.old.items }
    ensures gives { GivesEach giving.now bytes.now
        (receivers_seen ⟦<dyn Shelf as Shelf>⟧ shelves.old.items) failed.old.items result
        (receivers_seen ⟦<dyn Shelf as Shelf>⟧ shelves.new.items) failed.new.items }
    ensures numbered { length failed.new.items ≤ length shelves.new.items }
{
    for number in 0..failed.len() {
        give_at(shelves, failed, number, giving, bytes)?;
    }
    Ok(())
}

/// Shelves that are given the bytes of a digest: the first of a list, as many as `failed` has entries, but those that
/// have failed.
#[derive(Drop)]
pub(crate) struct Receivers {
    pub(crate) digest: Digest,
    pub(crate) shelves: Vec<Box<dyn Shelf>>,
    pub(crate) failed: Vec<bool>,
    ghost numbered: { length failed.items ≤ length shelves.items },
}

impl Receivers {
    pub(crate) fn new(digest: Digest, shelves: Vec<Box<dyn Shelf>>, failed: Vec<bool>) -> Receivers
        requires { length failed.items ≤ length shelves.items }
        ensures digest { result.digest ≡ digest }
        ensures shelves { result.shelves.items ≡ shelves.items }
        ensures failed { result.failed.items ≡ failed.items }
    {
        Receivers {
            digest,
            shelves,
            failed,
        }
    }

    /// Keeps what was begun.
    pub(crate) fn keep(&mut self) -> Result<(), Memory>
        ensures digest { self.new.digest ≡ self.old.digest }
        ensures keeps { GivesEach Keep []
            (receivers_seen ⟦<dyn Shelf as Shelf>⟧ self.old.shelves.items) self.old.failed.items result
            (receivers_seen ⟦<dyn Shelf as Shelf>⟧ self.new.shelves.items) self.new.failed.items }
    {
        give_each(&mut self.shelves, &mut self.failed, &Giving::Keep, &[])
    }
}

impl Target for Receivers {
    ghost use Rattle.std.specs.Prelude.{map};
    ghost use Rattle.tree_store.specs.Target.{ToShelves, receiver_of};

    ghost state = { λ r. ToShelves r.digest (map (λ b. receiver_of
        ((Shelf-box b).held b.value) ((Shelf-box b).rows b.value) ((Shelf-box b).faults b.value)
        ((Shelf-box b).begun b.value)) r.shelves.items) r.failed.items };

    fn append<W: World>(
        &mut self,
        _alloc: Global,
        _world: &mut W,
        bytes: &[u8],
    ) -> Result<(), StoreFault> {
        give_each(&mut self.shelves, &mut self.failed, &Giving::Append, bytes)?;
        Ok(())
    }
}
