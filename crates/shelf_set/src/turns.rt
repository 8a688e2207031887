// Shelves one after another.
ghost use Rattle.std.specs.Prelude.{◌≡◌, ◌<◌, ◌≤◌, IfOk, drop, length, take};
ghost use Rattle.shelf_set.specs.Dropping.{AreStanding};
ghost use Rattle.shelf_set.specs.ShelfState.{shelves_seen};
ghost use Rattle.shelf_set.specs.Turns.{DropsFailed, MovesLast, Settles, SettlesEach, is_failed};

use cnb_world::{List, Memory, Shelf, ShelfFault};
use std::alloc::Global;
use std::mem;

/// Shelves in order: those that stand, and behind them those that were dropped, in the order of dropping.
pub type Shelves = Vec<Box<dyn Shelf>>;

pub(crate) fn has_failed<T>(answer: &Result<T, ShelfFault>) -> bool
    ensures { result ≡ is_failed answer.now }
{
    match answer {
        Err(ShelfFault::Failed) => true,
        Err(ShelfFault::Memory) | Ok(_) => false,
    }
}

fn move_last<T>(items: &mut Vec<T>, at: usize)
    requires { at < length items.old.items }
    ensures { MovesLast items.old.items at items.new.items }
{
    items[at..].rotate_left(1);
}

/// Drops the shelf at a place, if it failed, and else goes on to the next place.
pub(crate) fn settle(shelves: &mut Shelves, numbers: &mut Vec<u32>, at: &mut usize, failed: bool)
    requires within { at.old < length shelves.old.items }
    requires numbered { at.old < length numbers.old.items }
    ensures { Settles failed
        (shelves_seen ⟦<dyn Shelf as Shelf>⟧ shelves.old.items) numbers.old.items at.old
        (shelves_seen ⟦<dyn Shelf as Shelf>⟧ shelves.new.items) numbers.new.items at.new }
{
    if failed {
        move_last(shelves, *at);
        move_last(numbers, *at);
    } else {
        *at += 1;
    }
}

// Drops each of the first shelves that failed, and answers how many still stand.
fn settle_each(shelves: &mut Shelves, numbers: &mut Vec<u32>, failed: &[bool]) -> usize
    requires standing { AreStanding numbers.old.items (shelves_seen ⟦<dyn Shelf as Shelf>⟧ shelves.old.items) }
    requires paired { length failed.now ≡ length numbers.old.items }
    ensures { SettlesEach failed.now
        (shelves_seen ⟦<dyn Shelf as Shelf>⟧ shelves.old.items) numbers.old.items
        (shelves_seen ⟦<dyn Shelf as Shelf>⟧ shelves.new.items) numbers.new.items result }
{
    let mut at = 0usize;
    for fails in failed {
        settle(shelves, numbers, &mut at, *fails);
    }
    at
}

/// Leaves so many numbers in the list, and answers the others.
pub(crate) fn part(
    alloc: Global,
    places: &mut List<u32>,
    mut numbers: Vec<u32>,
    standing: usize,
) -> Result<List<u32>, Memory>
    requires { standing ≤ length numbers.items }
    ensures left { places.new ≡ take standing numbers.items }
    ensures gone { IfOk result (λ gone. gone ≡ drop standing numbers.items) }
{
    let gone = numbers[standing..].to_vec(alloc);
    numbers.truncate(standing);
    *places = List::from_vec(numbers);
    Ok(List::from_vec(gone?))
}

/// The same, where the others go into a list of as many as there are numbers.
pub(crate) fn part_into(
    places: &mut List<u32>,
    mut numbers: Vec<u32>,
    standing: usize,
    mut spare: Vec<u32>,
) -> List<u32>
    requires within { standing ≤ length numbers.items }
    requires room { length spare.items ≡ length numbers.items }
    ensures left { places.new ≡ take standing numbers.items }
    ensures gone { result ≡ drop standing numbers.items }
{
    let others = &numbers[standing..];
    spare.truncate(others.len());
    spare.as_mut_slice().copy_from_slice(others);
    numbers.truncate(standing);
    *places = List::from_vec(numbers);
    List::from_vec(spare)
}

/// Drops the shelves that failed, and answers their numbers, which go into a list of as many as stood.
pub(crate) fn drop_failed(
    alloc: Global,
    shelves: &mut Shelves,
    places: &mut List<u32>,
    failed: &[bool],
    spare: Vec<u32>,
) -> List<u32>
    requires standing { AreStanding places.old (shelves_seen ⟦<dyn Shelf as Shelf>⟧ shelves.old.items) }
    requires paired { length failed.now ≡ length places.old }
    requires room { length spare.items ≡ length places.old }
    ensures { DropsFailed failed.now
        (shelves_seen ⟦<dyn Shelf as Shelf>⟧ shelves.old.items) places.old
        (shelves_seen ⟦<dyn Shelf as Shelf>⟧ shelves.new.items) places.new result }
{
    let mut numbers = mem::replace(places, List::new(alloc)).into_vec();
    let standing = settle_each(shelves, &mut numbers, failed);
    part_into(places, numbers, standing, spare)
}
