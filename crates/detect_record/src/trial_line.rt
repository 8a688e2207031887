// The line of a trial in the record that is made.
ghost use Rattle.std.specs.Prelude.{◌≡◌, ◌||◌, IfOk, not, position};
ghost use Rattle.plan_resolve.specs.Trials.{is_provided, is_required};
ghost use Rattle.detect_record.specs.Canonical.{first_step, first_unprovided, first_unrequired, line_of, step_at};
ghost use Rattle.detect_record.specs.Record.{is_empty, may_drop, without};

use crate::fitting::{drop_place, is_provided, is_required, may_drop};
use crate::parts::{GroupLine, Side, Step};
use cnb_toml::Need;
use cnb_world::{List, Memory, Text};
use plan_resolve::{BorrowedRow, numbers_below};
use std::alloc::Global;

fn first_need(trial: &[BorrowedRow], left: &[u32], place: u32, needs: &[Need]) -> Option<usize>
    ensures { result ≡ position (λ need. not (is_provided trial.now left.now place need.name)) needs.now }
{
    needs.iter().position(|need| !is_provided(trial, left, place, need.name.as_str()))
}

fn first_name(trial: &[BorrowedRow], left: &[u32], place: u32, names: &[Text]) -> Option<usize>
    ensures { result ≡ position (λ name. not (is_required trial.now left.now place name)) names.now }
{
    names
        .iter()
        .position(|name| !is_required(trial, left, place, name.as_str()))
}

#[tactic(auto, using(crate::proofs::MakingLemmas::first_need_is))]
fn first_unprovided(
    trial: &[BorrowedRow],
    left: &[u32],
    place: u32,
    needs: &[Need],
) -> Option<usize>
    ensures { result ≡ first_unprovided trial.now left.now place 0 needs.now }
{
    first_need(trial, left, place, needs)
}

#[tactic(auto, using(crate::proofs::MakingLemmas::first_name_is))]
fn first_unrequired(
    trial: &[BorrowedRow],
    left: &[u32],
    place: u32,
    names: &[Text],
) -> Option<usize>
    ensures { result ≡ first_unrequired trial.now left.now place 0 names.now }
{
    first_name(trial, left, place, names)
}

/// A number of 32 bits. More names or buildpacks than these can count fit into no memory.
pub(crate) fn number_of(name: usize) -> Result<u32, Memory>
    ensures { IfOk result (λ number. number ≡ name) }
{
    match u32::try_from(name) {
        Ok(number) => Ok(number),
        Err(_) => Err(Memory),
    }
}

// The first step at a place that is left.
fn step_at(trial: &[BorrowedRow], left: &[u32], place: u32) -> Result<Option<Step>, Memory>
    ensures { IfOk result (λ step. step ≡ step_at trial.now left.now place) }
{
    let Some(row) = trial.get(place as usize) else {
        return Ok(None);
    };
    if let Some(name) = first_unprovided(trial, left, place, row.needs()) {
        let name = number_of(name)?;
        return Ok(Some(Step {
            place,
            side: Side::Required,
            name,
        }));
    }
    if let Some(name) = first_unrequired(trial, left, place, row.provides()) {
        let name = number_of(name)?;
        return Ok(Some(Step {
            place,
            side: Side::Provided,
            name,
        }));
    }
    Ok(None)
}

// The first step that fits the places left.
fn first_step(trial: &[BorrowedRow], left: &[u32]) -> Result<Option<Step>, Memory>
    ensures { IfOk result (λ step. step ≡ first_step trial.now left.now) }
{
    for place in left {
        if let Some(step) = step_at(trial, left, *place)? {
            return Ok(Some(step));
        }
    }
    Ok(None)
}

// Takes the place of a step away, and tells whether the trial then fails.
fn drop_to_end(trial: &[BorrowedRow], left: &mut Vec<u32>, step: Step) -> bool
    ensures left { left.new.items ≡ without step.place left.old.items }
    ensures end { result ≡ (not (may_drop trial.now step) || is_empty left.new.items) }
{
    drop_place(left, step.place);
    !may_drop(trial, step) || left.is_empty()
}

/// The line of a trial: each of its steps is the first that fits.
pub(crate) fn line_of(alloc: Global, trial: &[BorrowedRow]) -> Result<GroupLine, Memory>
    ensures { IfOk result (λ line. line ≡ line_of trial.now) }
{
    let mut left = numbers_below(alloc, number_of(trial.len())?)?;
    let mut steps = List::new(alloc);
    while let Some(step) = first_step(trial, left.as_slice())? {
        steps.push(step)?;
        if drop_to_end(trial, &mut left, step) {
            return Ok(GroupLine::Drop(steps));
        }
    }
    Ok(GroupLine::Keep(steps))
}
