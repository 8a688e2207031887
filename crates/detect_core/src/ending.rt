// How a group ends the search.
ghost use Rattle.std.specs.Prelude.{◌≡◌, ◌<◌, ◌^◌, ◌∷◌, [], IfOk, IfSome, length, map, slice_get};
ghost use Rattle.std.specs.List.{list_all};
ghost use Rattle.std.specs.Option.{option_copied};
ghost use Rattle.plan_resolve.specs.Plan.{at_places};
ghost use Rattle.plan_resolve.specs.Resolution.{has_options};
ghost use Rattle.detect_core.specs.Detection.{ending_of_rows};
ghost use Rattle.detect_core.specs.Ending.{EndsGroup};
ghost use Rattle.detect_core.specs.Kept.{keys_of};
ghost use Rattle.detect_core.specs.Search.{IsChoice, group_rows};

use crate::chosen::{Chosen, DetectEnd};
use crate::judging::Judged;
use crate::kept::Kept;
use cnb_toml::BUILDPACK_API;
use cnb_world::{List, Memory, Text};
use plan_resolve::{AliveRow, PlanFault, Resolved, resolve};
use run_docs::{GroupDoc, GroupRow};
use std::alloc::Global;

/// The choice that a judged group comes to, where one of its trials passes. A buildpack without alternatives leaves the
/// group without a trial.
#[tactic(auto, using(plan_resolve::proofs::ResolutionLemmas::too_many_so, plan_resolve::proofs::ResolutionLemmas::passes_so, plan_resolve::proofs::ResolutionLemmas::fails_so))]
pub fn end_of(
    alloc: Global,
    judged: &Judged,
    place: u32,
    kept: &Kept,
) -> Result<Option<Chosen>, DetectEnd>
    requires { IfSome judged.now.alive (λ rows. length rows < 2 ^ 32) }
    ensures { EndsGroup result (ending_of_rows place judged.now.alive) (keys_of kept.now) }
{
    let Some(alive) = &judged.alive else {
        return Ok(None);
    };
    if !have_options(alive.as_slice()) {
        return Ok(None);
    }
    match resolve(alloc, alive) {
        Ok(None) => Ok(None),
        Ok(Some(resolved)) => match choice(alloc, alive.as_slice(), resolved, place, kept) {
            Ok(chosen) => Ok(Some(chosen)),
            Err(Memory) => Err(DetectEnd::Memory),
        },
        Err(PlanFault::ManyTrials) => Err(DetectEnd::ManyTrials),
        Err(PlanFault::Memory) => Err(DetectEnd::Memory),
    }
}

/// Whether each of these buildpacks has an alternative.
pub fn have_options(rows: &[AliveRow]) -> bool
    ensures { result ≡ list_all has_options rows.now }
{
    rows.iter().all(|row| !row.options.as_slice().is_empty())
}

fn choice(
    alloc: Global,
    rows: &[AliveRow],
    resolved: Resolved,
    place: u32,
    kept: &Kept,
) -> Result<Chosen, Memory>
    ensures { IfOk result (λ chosen. IsChoice chosen place resolved
        (map (λ row. row.key) (at_places rows.now resolved.kept)) (keys_of kept.now)) }
{
    let group = group_of(alloc, rows, resolved.kept.as_slice())?;
    let asked = kept.keys(alloc)?;
    Ok(Chosen {
        group,
        plan: resolved.plan,
        place,
        trial: resolved.trial,
        trials: resolved.trials,
        asked,
    })
}

/// The group of the buildpacks at these places.
pub fn group_of(alloc: Global, rows: &[AliveRow], places: &[u32]) -> Result<GroupDoc, Memory>
    ensures { IfOk result (λ group. group ≡ group_rows (map (λ row. row.key) (at_places rows.now places.now))) }
{
    let mut group = List::new(alloc);
    for place in places {
        if let Some(row) = row_at(rows, *place) {
            group.push(group_row(alloc, row)?)?;
        }
    }
    Ok(group)
}

fn row_at(rows: &[AliveRow], place: u32) -> Option<&AliveRow>
    ensures { option_copied result ≡ slice_get rows.now place }
{
    rows.get(place as usize)
}

fn group_row(alloc: Global, row: &AliveRow) -> Result<GroupRow, Memory>
    ensures { IfOk result (λ new. group_rows (row.now.key ∷ []) ≡ new ∷ []) }
{
    let key = row.key.copy(alloc)?;
    let api = Text::of(alloc, BUILDPACK_API)?;
    Ok(GroupRow { key, api })
}
