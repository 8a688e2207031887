// The first trial that passes.
ghost use Rattle.std.specs.Prelude.{◌≡◌, ◌<◌, ◌^◌, IsTrue, IfOk, length};
ghost use Rattle.std.specs.List.{list_all};
ghost use Rattle.steps.specs.Causes.{IsAnswer};
ghost use Rattle.plan_resolve.specs.Choices.{choices_of, choice_count};
ghost use Rattle.plan_resolve.specs.Resolution.{resolution_answer, cause_of, resolution, has_options, first_passing};
ghost use Rattle.plan_resolve.specs.Resolution.{resolved_at};

use crate::borrowed::BorrowedRow;
use crate::choosing::{choose, trial_count};
use crate::kept_rows::kept_rows;
use crate::plan::plan;
use crate::prefix::Prefix;
use crate::pruning::{failing, kept_places, numbers_below};
use crate::rows::{Alive, AliveRow, Resolved};
use cnb_world::{List, Memory};
use std::alloc::Global;

/// Why a group's trials were not resolved.
#[derive(Clone, Copy, Debug, PartialEq, Eq)]
pub enum PlanFault {
    /// There are more than 65,536.
    ManyTrials,
    Memory,
}

fn list_of(alloc: Global, places: &[u32]) -> Result<List<u32>, Memory>
    ensures { IfOk result (λ list. list ≡ places.now) }
{
    let mut list = List::new(alloc);
    for place in places {
        list.push(*place)?;
    }
    Ok(list)
}

/// What is resolved where the trial of a number keeps these places: the number, the places, and their plan.
pub fn resolved_at<'a>(
    alloc: Global,
    rows: &'a [AliveRow],
    trials: u32,
    number: u32,
    trial: &'a [BorrowedRow<'a>],
    places: &[u32],
) -> Result<Resolved, Memory>
    requires { trials ≡ choice_count rows.now }
    ensures { IfOk result (λ resolved. resolved ≡ resolved_at rows.now number trial.now places.now) }
{
    let rows = kept_rows(alloc, rows, trial, places)?;
    let plan = plan(alloc, rows.as_slice())?;
    let kept = list_of(alloc, places)?;
    Ok(Resolved {
        trial: number,
        trials,
        kept,
        plan,
    })
}

/// The first of all trials that passes. Those that begin with a dead prefix are passed over. Where a trial fails at
/// once, the buildpack that it fails by is most likely the one that the next trial fails by.
fn first_passing(alloc: Global, rows: &[AliveRow], trials: u32) -> Result<Option<Resolved>, Memory>
    requires len { length rows.now < 2 ^ 32 }
    requires count { trials ≡ choice_count rows.now }
    ensures { IfOk result (λ passing. passing ≡ first_passing rows.now 0 (choices_of rows.now)) }
{
    let all = numbers_below(alloc, rows.len() as u32)?;
    let mut prefix = Prefix::with_capacity(alloc, rows.len())?;
    let mut likely = 0;
    let mut number = 0;
    while number < trials {
        if let Some(count) = choose(rows, trials, number, &mut prefix)? {
            number += count;
            continue;
        }
        let trial = prefix.rows();
        if let Some(index) = failing(trial, all.as_slice(), likely) {
            likely = index;
        } else if let Some(places) = kept_places(alloc, trial)? {
            let resolved = resolved_at(alloc, rows, trials, number, trial, places.as_slice())?;
            return Ok(Some(resolved));
        }
        number += 1;
    }
    Ok(None)
}

/// The first trial of a group that passes, with its plan.
pub fn resolve(alloc: Global, alive: &Alive) -> Result<Option<Resolved>, PlanFault>
    requires rows { length alive.now < 2 ^ 32 }
    requires options { IsTrue (list_all has_options alive.now) }
    ensures { IsAnswer cause_of result (resolution_answer (resolution alive.now)) }
{
    let rows = alive.as_slice();
    let Some(trials) = trial_count(rows) else {
        return Err(PlanFault::ManyTrials);
    };
    match first_passing(alloc, rows, trials) {
        Ok(passing) => Ok(passing),
        Err(Memory) => Err(PlanFault::Memory),
    }
}
