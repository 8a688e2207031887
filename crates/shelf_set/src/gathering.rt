// Gathering rows.
ghost use Rattle.std.specs.Prelude.{◌≡◌, ◌++◌, ◌∷◌, [], IfOk, List, OnErr, OnOk, fold, not, unwrap_or};
ghost use Rattle.std.specs.HashSet.{contains};
ghost use Rattle.cnb_toml.specs.Distinct.{HasKeysOf};
ghost use Rattle.image_docs.specs.LayerRow.{layer_key, same_layer};
ghost use Rattle.image_docs.specs.declared.layer_row.LayerRow.{LayerRow};
ghost use Rattle.shelf_set.specs.ShelfState.{shelves_seen};
ghost use Rattle.shelf_set.specs.Dropping.{AreStanding};
ghost use Rattle.shelf_set.specs.Finding.{LeavesSame};
ghost use Rattle.shelf_set.specs.Gathering.{Gathers, all_rows, first_rows, unread_of, with_row};

use crate::giving::{Given, GivenEach, give_each};
use crate::turns::{Shelves, part};
use cnb_toml::see_key;
use cnb_world::{List, Memory, Shelf};
use image_docs::{CacheDoc, LayerKey, LayerRow, layer_key};
use std::alloc::Global;
use std::collections::HashSet;
use std::mem;

/// The rows that shelves gave, no two of one layer; and the numbers of the shelves whose documents are refused, and of
/// those that were dropped.
#[derive(Drop)]
pub struct Gathered {
    pub rows: CacheDoc,
    pub unread: List<u32>,
    pub gone: List<u32>,
}

/// Rows of distinct layers, with their keys, and the numbers of shelves whose documents are refused.
#[derive(Drop)]
struct Merged {
    rows: CacheDoc,
    seen: HashSet<LayerKey>,
    unread: List<u32>,
}

// Whether a row is the first of its layer, whose key is seen from then on.
#[tactic(auto, using(cnb_toml::specs::DistinctLaws::one_more_seen))]
fn is_first(alloc: Global, seen: &mut HashSet<LayerKey>, row: &LayerRow) -> Result<bool, Memory>
    ensures first { IfOk result (λ first. first ≡ not (contains same_layer seen.old (layer_key row.now))) }
    ensures seen { (rows : List LayerRow) → HasKeysOf same_layer layer_key rows seen.old
        → OnOk result (HasKeysOf same_layer layer_key (with_row rows row.now) seen.new) }
{
    let key = layer_key(alloc, row)?;
    if seen.contains(&key) {
        return Ok(false);
    }
    see_key(seen, key)?;
    Ok(true)
}

fn add_row(
    alloc: Global,
    rows: &mut List<LayerRow>,
    seen: &mut HashSet<LayerKey>,
    row: LayerRow,
) -> Result<(), Memory>
    requires { HasKeysOf same_layer layer_key rows.old seen.old }
    ensures rows { OnOk result (rows.new ≡ with_row rows.old row) }
    ensures seen { OnOk result (HasKeysOf same_layer layer_key rows.new seen.new) }
{
    if is_first(alloc, seen, &row)? {
        rows.push(row)
    } else {
        Ok(())
    }
}

fn add_rows(
    alloc: Global,
    rows: &mut List<LayerRow>,
    seen: &mut HashSet<LayerKey>,
    more: List<LayerRow>,
) -> Result<(), Memory>
    requires { HasKeysOf same_layer layer_key rows.old seen.old }
    ensures rows { OnOk result (rows.new ≡ fold with_row rows.old more) }
    ensures seen { OnOk result (HasKeysOf same_layer layer_key rows.new seen.new) }
{
    for row in more.into_vec() {
        add_row(alloc, rows, seen, row)?;
    }
    Ok(())
}

fn add_given(alloc: Global, merged: &mut Merged, given: Given) -> Result<(), Memory>
    requires { HasKeysOf same_layer layer_key merged.old.rows merged.old.seen }
    ensures rows { OnOk result (merged.new.rows ≡ fold with_row merged.old.rows (unwrap_or given.rows [])) }
    ensures seen { OnOk result (HasKeysOf same_layer layer_key merged.new.rows merged.new.seen) }
    ensures unread { OnOk result (merged.new.unread ≡ merged.old.unread ++ unread_of (given ∷ [])) }
{
    match given.rows {
        Some(rows) => add_rows(alloc, &mut merged.rows, &mut merged.seen, rows),
        None => merged.unread.push(given.number),
    }
}

fn merge(alloc: Global, given: List<Given>) -> Result<Merged, Memory>
    ensures rows { IfOk result (λ merged. merged.rows ≡ first_rows (all_rows given)) }
    ensures unread { IfOk result (λ merged. merged.unread ≡ unread_of given) }
{
    let mut merged = Merged {
        rows: List::new(alloc),
        seen: HashSet::new(alloc),
        unread: List::new(alloc),
    };
    for one in given.into_vec() {
        add_given(alloc, &mut merged, one)?;
    }
    Ok(merged)
}

/// Gathers the rows of the shelves that stand. `places` has their numbers, and the first shelves of the list, as many,
/// are these. Rows whose trees a shelf doesn't hold are left out, and of one layer the first in order is taken.
#[tactic(auto, using(crate::proofs::GatherLemmas::gathers, crate::proofs::GatherLemmas::leaves))]
pub fn gather(
    alloc: Global,
    shelves: &mut Shelves,
    places: &mut List<u32>,
) -> Result<Gathered, Memory>
    requires { AreStanding places.old (shelves_seen ⟦<dyn Shelf as Shelf>⟧ shelves.old.items) }
    ensures gathers { IfOk result (λ gathered. Gathers
        (shelves_seen ⟦<dyn Shelf as Shelf>⟧ shelves.old.items) places.old
        gathered
        (shelves_seen ⟦<dyn Shelf as Shelf>⟧ shelves.new.items) places.new) }
    ensures memory { OnErr result (LeavesSame
        (shelves_seen ⟦<dyn Shelf as Shelf>⟧ shelves.old.items) places.old
        (shelves_seen ⟦<dyn Shelf as Shelf>⟧ shelves.new.items) places.new) }
    ensures again { AreStanding places.new (shelves_seen ⟦<dyn Shelf as Shelf>⟧ shelves.new.items) }
{
    let mut numbers = mem::replace(places, List::new(alloc)).into_vec();
    let GivenEach { given, standing } = give_each(alloc, shelves, &mut numbers);
    let gone = part(alloc, places, numbers, standing)?;
    let Merged { rows, unread, .. } = merge(alloc, given?)?;
    Ok(Gathered { rows, unread, gone })
}
