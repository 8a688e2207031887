// One shelf is asked.
ghost use Rattle.std.specs.Prelude.{◌↔◌, ◌<◌, ℕ, IfOk, IsTrue, List as Seq, Option, Result, length};
ghost use Rattle.cnb_world.specs.declared.shelf.ShelfFault.{ShelfFault};
ghost use Rattle.tree_canon.specs.declared.judging.Judged.{Judged};
ghost use Rattle.tree_store.specs.Checking.{ChecksOf};
ghost use Rattle.shelf_set.specs.ShelfState.{ShelfState, state_of, shelves_seen};
ghost use Rattle.shelf_set.specs.Turns.{Replaces};
ghost use Rattle.shelf_set.specs.Searching.{Asks, IsChecked, IsSpelled, Reads};

use crate::turns::Shelves;
use cnb_world::{Bytes, Memory, Shelf, ShelfFault};
use std::alloc::Global;
use tree_canon::{Digest, Judged, Judging, Reason};
use tree_store::{StoreFault, TreeCheck};

/// How many bytes are read at once.
const PIECE: u64 = 65536;

/// How many pieces may come before their places are too large for a number.
const PIECES: u64 = 281474976710655;

/// What bytes are that were read and not kept: the spelling of a tree, or damaged.
pub(crate) enum Checked {
    Tree,
    Damaged {
        asked: Digest,
        found: Digest,
        bad: Option<Reason>,
    },
}

/// Whether bytes end with a piece that was read: fewer came than were asked for.
fn is_last(piece: &Bytes) -> bool
    ensures { IsTrue result ↔ (length piece.now < 65536) }
{
    (piece.as_slice().len() as u64) < PIECE
}

fn read_piece(
    shelf: &mut Box<dyn Shelf>,
    digest: &Digest,
    at: u64,
) -> Result<Option<Bytes>, ShelfFault>
    ensures { Reads digest.now at result
        (state_of (held shelf.old) (rows shelf.old) (faults shelf.old))
        (state_of (held shelf.new) (rows shelf.new) (faults shelf.new)) }
{
    shelf.read(digest.bytes(), at, PIECE)
}

/// What a shelf holds under a digest, judged as it is read.
fn ask(
    alloc: Global,
    shelf: &mut Box<dyn Shelf>,
    digest: &Digest,
) -> Result<Option<Judged>, ShelfFault>
    ensures { Asks digest.now result
        (state_of (held shelf.old) (rows shelf.old) (faults shelf.old))
        (state_of (held shelf.new) (rows shelf.new) (faults shelf.new)) }
{
    let mut judging = Judging::new(alloc)?;
    for number in 0..PIECES {
        let Some(piece) = read_piece(shelf, digest, number * PIECE)? else {
            return Ok(None);
        };
        judging.take(piece.as_slice())?;
        if is_last(&piece) {
            return Ok(Some(judging.end(digest)?));
        }
    }
    Err(ShelfFault::Memory)
}

pub(crate) fn ask_at(
    alloc: Global,
    shelves: &mut Shelves,
    at: usize,
    digest: &Digest,
) -> Result<Option<Judged>, ShelfFault>
    requires { at < length shelves.old.items }
    ensures { (before : ShelfState) × (after : ShelfState)
        × Replaces (shelves_seen ⟦<dyn Shelf as Shelf>⟧ shelves.old.items) at before after
        (shelves_seen ⟦<dyn Shelf as Shelf>⟧ shelves.new.items)
        × Asks digest.now result before after }
{
    ask(alloc, &mut shelves[at], digest)
}

fn spelled(answer: Result<(), StoreFault>) -> Result<Checked, Memory>
    ensures { (digest bytes : Seq ℕ) → ChecksOf digest bytes answer → IfOk result (IsSpelled digest bytes) }
{
    let Err(fault) = answer else {
        return Ok(Checked::Tree);
    };
    let StoreFault::Damaged { asked, found, bad } = fault else {
        return Err(Memory);
    };
    Ok(Checked::Damaged { asked, found, bad })
}

/// The same of bytes of which nothing is kept.
fn check(
    alloc: Global,
    shelf: &mut Box<dyn Shelf>,
    digest: &Digest,
) -> Result<Option<Checked>, ShelfFault>
    ensures { (asked : Result (Option Judged) ShelfFault) × IsChecked asked result × Asks digest.now asked
        (state_of (held shelf.old) (rows shelf.old) (faults shelf.old))
        (state_of (held shelf.new) (rows shelf.new) (faults shelf.new)) }
{
    let mut checking = TreeCheck::new(alloc)?;
    for number in 0..PIECES {
        let Some(piece) = read_piece(shelf, digest, number * PIECE)? else {
            return Ok(None);
        };
        checking.take(piece.as_slice())?;
        if is_last(&piece) {
            return Ok(Some(spelled(checking.end(digest))?));
        }
    }
    Err(ShelfFault::Memory)
}

pub(crate) fn check_at(
    alloc: Global,
    shelves: &mut Shelves,
    at: usize,
    digest: &Digest,
) -> Result<Option<Checked>, ShelfFault>
    requires { at < length shelves.old.items }
    ensures { (before : ShelfState) × (after : ShelfState)
        × Replaces (shelves_seen ⟦<dyn Shelf as Shelf>⟧ shelves.old.items) at before after
        (shelves_seen ⟦<dyn Shelf as Shelf>⟧ shelves.new.items)
        × (asked : Result (Option Judged) ShelfFault) × IsChecked asked result
        × Asks digest.now asked before after }
{
    check(alloc, &mut shelves[at], digest)
}
