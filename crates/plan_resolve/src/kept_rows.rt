// The buildpacks that a trial keeps.
ghost use Rattle.std.specs.Prelude.{◌≡◌, IfOk, slice_get};
ghost use Rattle.plan_resolve.specs.Plan.{at_places, with_keys};

use crate::borrowed::BorrowedRow;
use crate::rows::AliveRow;
use cnb_toml::{Key, Need};
use cnb_world::{Memory, Text};
use std::alloc::Global;
use std::marker::Model;

/// A buildpack that a trial keeps, borrowed, with what it provides and requires there.
#[derive(Drop)]
pub struct KeptRow<'a> {
    key: &'a Key,
    optional: bool,
    provides: &'a [Text],
    needs: &'a [Need],
}

impl<'a> Model for KeptRow<'a> {
    ghost use Rattle.std.specs.Coded.{codes};
    ghost use Rattle.plan_resolve.specs.contracts.rows.TrialRow as trial_row;
    ghost use Rattle.plan_resolve.specs.Plan.{Kept};

    ghost Value = { Kept };

    ghost coded = { Prim.hlevel (codes, trial_row.the_row.coded) };

    ghost view = { λ a. record { key = a.key.now; row = record { optional = a.optional; provides = a.provides.now; needs = a.needs.now } } };
}

impl<'a> KeptRow<'a> {
    pub fn of(alive: &'a AliveRow, row: &'a BorrowedRow<'a>) -> KeptRow<'a>
        ensures { result ≡ record { key = alive.now.key; row = row.now } }
    {
        KeptRow {
            key: &alive.key,
            optional: row.is_optional(),
            provides: row.provides(),
            needs: row.needs(),
        }
    }

    pub fn key(&self) -> &'a Key
        ensures { result.now ≡ self.now.key }
    {
        self.key
    }

    pub fn provides(&self) -> &'a [Text]
        ensures { result.now ≡ self.now.row.provides }
    {
        self.provides
    }

    pub fn needs(&self) -> &'a [Need]
        ensures { result.now ≡ self.now.row.needs }
    {
        self.needs
    }
}

/// The buildpack at a place.
fn kept_row<'a>(
    rows: &'a [AliveRow],
    trial: &'a [BorrowedRow<'a>],
    place: u32,
) -> Option<KeptRow<'a>>
    ensures { result ≡ slice_get (with_keys rows.now trial.now) place }
{
    let alive = rows.get(place as usize)?;
    let row = trial.get(place as usize)?;
    Some(KeptRow::of(alive, row))
}

/// The buildpacks at these places.
pub fn kept_rows<'a>(
    alloc: Global,
    rows: &'a [AliveRow],
    trial: &'a [BorrowedRow<'a>],
    places: &[u32],
) -> Result<Vec<KeptRow<'a>>, Memory>
    ensures { IfOk result (λ kept. kept.items ≡ at_places (with_keys rows.now trial.now) places.now) }
{
    let mut kept = Vec::with_capacity(alloc, places.len())?;
    for place in places {
        if let Some(row) = kept_row(rows, trial, *place) {
            kept.push(row)?;
        }
    }
    Ok(kept)
}
