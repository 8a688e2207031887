// The rows that one shelf after another gives.
ghost use Rattle.std.specs.Prelude.{◌≡◌, ◌<◌, IfOk, length, slice_index};
ghost use Rattle.shelf_set.specs.ShelfState.{ShelfState, state_of, shelves_seen};
ghost use Rattle.shelf_set.specs.Dropping.{AreStanding};
ghost use Rattle.shelf_set.specs.Turns.{Replaces, TakesTurn, is_failed};
ghost use Rattle.shelf_set.specs.Gathering.{document_rows};
ghost use Rattle.shelf_set.specs.Giving.{Gives, GivesEach, GivesMore, KeepsRow, KeepsRows, ReadsRows};

use crate::turns::{Shelves, has_failed, settle};
use cnb_toml::DocFault;
use cnb_world::{LONGEST_DOCUMENT, List, Memory, Shelf, ShelfFault};
use image_docs::{LayerRow, read_cache};
use std::alloc::Global;

/// What the shelf with this number gave: rows, or nothing where its document is refused.
#[derive(Drop)]
pub(crate) struct Given {
    pub number: u32,
    pub rows: Option<List<LayerRow>>,
}

fn document_rows(alloc: Global, document: &[u8]) -> Result<Option<List<LayerRow>>, Memory>
    ensures { IfOk result (λ rows. rows ≡ document_rows document.now) }
{
    if document.len() > LONGEST_DOCUMENT {
        return Ok(None);
    }
    match read_cache(alloc, document) {
        Ok(rows) => Ok(Some(rows)),
        Err(DocFault::Memory) => Err(Memory),
        Err(_) => Ok(None),
    }
}

fn read_rows(
    alloc: Global,
    shelf: &mut Box<dyn Shelf>,
) -> Result<Option<List<LayerRow>>, ShelfFault>
    ensures { ReadsRows result
        (state_of (held shelf.old) (rows shelf.old) (faults shelf.old))
        (state_of (held shelf.new) (rows shelf.new) (faults shelf.new)) }
{
    let document = shelf.rows()?;
    let rows = document_rows(alloc, document.as_slice())?;
    Ok(rows)
}

/// Puts a row behind others, if the shelf holds its tree.
fn keep_row(
    shelf: &mut Box<dyn Shelf>,
    kept: &mut List<LayerRow>,
    row: LayerRow,
) -> Result<(), ShelfFault>
    ensures { KeepsRow row kept.old result kept.new
        (state_of (held shelf.old) (rows shelf.old) (faults shelf.old))
        (state_of (held shelf.new) (rows shelf.new) (faults shelf.new)) }
{
    if !shelf.has(row.digest.bytes())? {
        return Ok(());
    }
    kept.push(row)?;
    Ok(())
}

fn keep_rows(
    alloc: Global,
    shelf: &mut Box<dyn Shelf>,
    listed: List<LayerRow>,
) -> Result<List<LayerRow>, ShelfFault>
    ensures { KeepsRows listed result
        (state_of (held shelf.old) (rows shelf.old) (faults shelf.old))
        (state_of (held shelf.new) (rows shelf.new) (faults shelf.new)) }
{
    let mut kept = List::new(alloc);
    for row in listed.into_vec() {
        keep_row(shelf, &mut kept, row)?;
    }
    Ok(kept)
}

fn give(alloc: Global, shelf: &mut Box<dyn Shelf>) -> Result<Option<List<LayerRow>>, ShelfFault>
    ensures { Gives result
        (state_of (held shelf.old) (rows shelf.old) (faults shelf.old))
        (state_of (held shelf.new) (rows shelf.new) (faults shelf.new)) }
{
    match read_rows(alloc, shelf)? {
        None => Ok(None),
        Some(rows) => {
            let kept = keep_rows(alloc, shelf, rows)?;
            Ok(Some(kept))
        }
    }
}

fn give_more(
    alloc: Global,
    shelf: &mut Box<dyn Shelf>,
    number: u32,
    given: &mut List<Given>,
) -> Result<(), ShelfFault>
    ensures { GivesMore number given.old result given.new
        (state_of (held shelf.old) (rows shelf.old) (faults shelf.old))
        (state_of (held shelf.new) (rows shelf.new) (faults shelf.new)) }
{
    let rows = give(alloc, shelf)?;
    given.push(Given { number, rows })?;
    Ok(())
}

fn give_at(
    alloc: Global,
    shelves: &mut Shelves,
    at: usize,
    number: u32,
    given: &mut List<Given>,
) -> Result<(), ShelfFault>
    requires { at < length shelves.old.items }
    ensures { (before : ShelfState) × (after : ShelfState)
        × Replaces (shelves_seen ⟦<dyn Shelf as Shelf>⟧ shelves.old.items) at before after
        (shelves_seen ⟦<dyn Shelf as Shelf>⟧ shelves.new.items)
        × GivesMore number given.old result given.new before after }
{
    give_more(alloc, &mut shelves[at], number, given)
}

fn take_turn(
    alloc: Global,
    shelves: &mut Shelves,
    numbers: &mut Vec<u32>,
    at: &mut usize,
    given: &mut List<Given>,
) -> Result<(), ShelfFault>
    requires within { at.old < length shelves.old.items }
    requires numbered { at.old < length numbers.old.items }
    ensures { TakesTurn
        (shelves_seen ⟦<dyn Shelf as Shelf>⟧ shelves.old.items) numbers.old.items at.old
        (GivesMore (slice_index numbers.old.items at.old) given.old result given.new) (is_failed result)
        (shelves_seen ⟦<dyn Shelf as Shelf>⟧ shelves.new.items) numbers.new.items at.new }
{
    let number = numbers[*at];
    let answer = give_at(alloc, shelves, *at, number, given);
    let failed = has_failed(&answer);
    settle(shelves, numbers, at, failed);
    answer
}

/// What the shelves that stand gave, and how many these are.
pub(crate) struct GivenEach {
    pub given: Result<List<Given>, Memory>,
    pub standing: usize,
}

/// Asks one shelf after another for its rows, until memory runs out.
pub(crate) fn give_each(alloc: Global, shelves: &mut Shelves, numbers: &mut Vec<u32>) -> GivenEach
    requires { AreStanding numbers.old.items (shelves_seen ⟦<dyn Shelf as Shelf>⟧ shelves.old.items) }
    ensures { GivesEach
        (shelves_seen ⟦<dyn Shelf as Shelf>⟧ shelves.old.items) numbers.old.items
        result.given
        (shelves_seen ⟦<dyn Shelf as Shelf>⟧ shelves.new.items) numbers.new.items result.standing }
{
    let count = numbers.len();
    let mut given = List::new(alloc);
    let mut at = 0usize;
    for asked in 0..count {
        match take_turn(alloc, shelves, numbers, &mut at, &mut given) {
            Ok(()) => {}
            Err(ShelfFault::Failed) => {}
            Err(ShelfFault::Memory) => {
                return GivenEach {
                    given: Err(Memory),
                    standing: at + (count - asked - 1),
                };
            }
        }
    }
    GivenEach {
        given: Ok(given),
        standing: at,
    }
}
