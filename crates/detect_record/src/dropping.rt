// The lines of one trial.
ghost use Rattle.std.specs.Prelude.{◌≡◌, ◌<◌, ◌^◌, ◌&&◌, IfSome, IfOk, None, Some, length};
ghost use Rattle.std.specs.Bool.{OnTrue, OnFalse};
ghost use Rattle.std.specs.Option.{option_map};
ghost use Rattle.plan_resolve.specs.Trials.{kept_of, places};
ghost use Rattle.detect_record.specs.Record.{drops, is_empty, left_after, may_drop, step_fits, without};
ghost use Rattle.detect_record.specs.Following.{kept_by};

use crate::fitting::{drop_place, is_closed, may_drop, step_fits};
use crate::parts::Step;
use cnb_world::Memory;
use plan_resolve::{BorrowedRow, numbers_below};
use std::alloc::Global;

// Takes away the place of a step that fits and has an optional row.
fn take(trial: &[BorrowedRow], step: Step, left: &mut Vec<u32>) -> bool
    ensures fits { result ≡ (step_fits trial.now left.old.items step && may_drop trial.now step) }
    ensures taken { OnTrue result (left.new.items ≡ without step.place left.old.items) }
{
    if !step_fits(trial, left.as_slice(), step) || !may_drop(trial, step) {
        return false;
    }
    drop_place(left, step.place);
    true
}

// Takes away the places of steps that fit and have optional rows, up to the first that doesn't.
#[tactic(auto, using(crate::proofs::FollowLemmas::follows, crate::proofs::FollowLemmas::refuses))]
fn follow(trial: &[BorrowedRow], steps: &[Step], left: &mut Vec<u32>) -> bool
    ensures followed { OnTrue result (left_after trial.now left.old.items steps.now ≡ Some left.new.items) }
    ensures refused { OnFalse result (left_after trial.now left.old.items steps.now ≡ None) }
{
    for step in steps {
        if !take(trial, *step, left) {
            return false;
        }
    }
    true
}

#[tactic(auto, using(crate::proofs::FollowLemmas::empty_length))]
fn is_nothing(left: &[u32]) -> bool
    ensures { result ≡ is_empty left.now }
{
    left.is_empty()
}

// Whether steps drop the trial, from these places on.
fn follow_to_drop(trial: &[BorrowedRow], steps: &[Step], left: &mut Vec<u32>) -> bool
    ensures { result ≡ drops trial.now left.old.items steps.now }
{
    let Some((last, before)) = steps.split_last() else {
        return false;
    };
    if !follow(trial, before, left) || !step_fits(trial, left.as_slice(), *last) {
        return false;
    }
    drop_place(left, last.place);
    !may_drop(trial, *last) || is_nothing(left.as_slice())
}

/// Whether the steps of a line `drop` meet its rule. Then the trial fails.
pub(crate) fn drops(alloc: Global, trial: &[BorrowedRow], steps: &[Step]) -> Result<bool, Memory>
    requires { length trial.now < 2 ^ 32 }
    ensures rule { IfOk result (λ met. met ≡ drops trial.now (places trial.now) steps.now) }
    ensures law { IfOk result (λ met. OnTrue met (kept_of trial.now ≡ None)) }
{
    let mut left = numbers_below(alloc, trial.len() as u32)?;
    Ok(follow_to_drop(trial, steps, &mut left))
}

/// The places that the steps of a line `keep` leave, where they meet its rule. Then these are what the trial keeps.
pub(crate) fn keeps(
    alloc: Global,
    trial: &[BorrowedRow],
    steps: &[Step],
) -> Result<Option<Vec<u32>>, Memory>
    requires { length trial.now < 2 ^ 32 }
    ensures rule { IfOk result (λ left. option_map (λ places. places.items) left
        ≡ kept_by trial.now (left_after trial.now (places trial.now) steps.now)) }
    ensures law { IfOk result (λ left. IfSome left (λ places. kept_of trial.now ≡ Some places.items)) }
{
    let mut left = numbers_below(alloc, trial.len() as u32)?;
    if follow(trial, steps, &mut left)
        && !is_nothing(left.as_slice())
        && is_closed(trial, left.as_slice())
    {
        return Ok(Some(left));
    }
    Ok(None)
}
