// The lines of a group's trials.
ghost use Rattle.std.specs.Prelude.{◌≡◌, ◌<◌, ◌^◌, ◌+◌, ◌∷◌, ℕ, false, true, List as Seq, IfOk, length};
ghost use Rattle.std.specs.Option.{option_map};
ghost use Rattle.steps.specs.Causes.{IsAnswer};
ghost use Rattle.order_expand.specs.declared.member.Member.{Member};
ghost use Rattle.plan_resolve.specs.declared.rows.AliveRow.{AliveRow as Alive};
ghost use Rattle.plan_resolve.specs.declared.rows.TrialRow.{TrialRow};
ghost use Rattle.plan_resolve.specs.Choices.{choice_count, choices_of};
ghost use Rattle.detect_record.specs.declared.parts.GroupLine.TheVariants.{Drop, Keep};
ghost use Rattle.detect_record.specs.Checking.{cause_of, checked_at};
ghost use Rattle.detect_record.specs.Record.{AtEnd, AtGroup, AtTrial, after_trial, is_empty, trying};
ghost use Rattle.detect_record.specs.Following.{GoesOn, IsNext, Known, checks, is_drop, kept_or_next};

use crate::dropping::{drops, keeps};
use crate::following::{missing, next_group};
use crate::lines::Lines;
use crate::outcome::{CheckFault, Checked};
use crate::parts::{GroupLine, Step};
use cnb_world::Memory;
use detect_core::group_of;
use plan_resolve::{AliveRow, BorrowedRow, chosen_trial, resolved_at};
use std::alloc::Global;

fn is_drop(alloc: Global, trial: &[BorrowedRow], line: &GroupLine) -> Result<bool, Memory>
    requires { length trial.now < 2 ^ 32 }
    ensures { IfOk result (λ met. met ≡ is_drop trial.now line.now) }
{
    match line {
        GroupLine::Drop(steps) => drops(alloc, trial, steps.as_slice()),
        _ => Ok(false),
    }
}

// Whether the line of a trial that isn't of the chosen group meets its rule.
fn judge_drop(
    alloc: Global,
    trial: &[BorrowedRow],
    line: &GroupLine,
    taken: u32,
) -> Result<(), CheckFault>
    requires { length trial.now < 2 ^ 32 }
    ensures { (place : ℕ) (rows : Seq Alive) (groups : Seq (Seq Member)) (number : ℕ) (trials : Seq (Seq TrialRow))
        → IsNext result taken (after_trial false place rows groups number trial.now trials line.now)
        (λ _. trying false place rows groups (number + 1) trials) }
{
    if is_drop(alloc, trial, line)? {
        return Ok(());
    }
    Err(CheckFault::Bad { line: taken })
}

fn check_drop(alloc: Global, trial: &[BorrowedRow], lines: &mut Lines) -> Result<(), CheckFault>
    requires { length trial.now < 2 ^ 32 }
    ensures { (known : Known) (place : ℕ) (rows : Seq Alive) (groups : Seq (Seq Member)) (number : ℕ)
        (trials : Seq (Seq TrialRow))
        → GoesOn result (checks known (AtTrial false place rows groups number (trial.now ∷ trials)) lines.old)
        (λ _. checks known (trying false place rows groups (number + 1) trials) lines.new) }
{
    let line = next_group(alloc, lines)?;
    judge_drop(alloc, trial, &line, lines.taken())
}

/// Follows the lines of a group of which each trial fails.
pub(crate) fn check_trials(
    alloc: Global,
    rows: &[AliveRow],
    count: u32,
    lines: &mut Lines,
) -> Result<(), CheckFault>
    requires count { count ≡ choice_count rows.now }
    requires few { length rows.now < 2 ^ 32 }
    ensures { (known : Known) (place : ℕ) (groups : Seq (Seq Member))
        → GoesOn result (checks known (trying false place rows.now groups 0 (choices_of rows.now)) lines.old)
        (λ _. checks known (AtGroup (place + 1) groups) lines.new) }
{
    let mut trial = Vec::new(alloc);
    for number in 0..count {
        chosen_trial(rows, count, number, &mut trial)?;
        check_drop(alloc, trial.as_slice(), lines)?;
    }
    Ok(())
}

fn judge_keep(
    alloc: Global,
    trial: &[BorrowedRow],
    steps: &[Step],
    taken: u32,
) -> Result<Option<Vec<u32>>, CheckFault>
    requires { length trial.now < 2 ^ 32 }
    ensures { (place : ℕ) (rows : Seq Alive) (groups : Seq (Seq Member)) (number : ℕ) (trials : Seq (Seq TrialRow))
        → IsNext result taken (after_trial true place rows groups number trial.now trials (Keep steps.now))
        (λ kept. kept_or_next place rows groups number trial.now trials (option_map (λ places. places.items) kept)) }
{
    match keeps(alloc, trial, steps)? {
        Some(places) => Ok(Some(places)),
        None => Err(CheckFault::Bad { line: taken }),
    }
}

// Whether the steps of a line drop a trial of the chosen group that isn't the last.
fn judge_earlier(
    alloc: Global,
    trial: &[BorrowedRow],
    is_last: bool,
    steps: &[Step],
    taken: u32,
) -> Result<Option<Vec<u32>>, CheckFault>
    requires { length trial.now < 2 ^ 32 }
    ensures { (place : ℕ) (rows : Seq Alive) (groups : Seq (Seq Member)) (number : ℕ) (trials : Seq (Seq TrialRow))
        → is_last ≡ is_empty trials
        → IsNext result taken (after_trial true place rows groups number trial.now trials (Drop steps.now))
        (λ kept. kept_or_next place rows groups number trial.now trials (option_map (λ places. places.items) kept)) }
{
    if !is_last && drops(alloc, trial, steps)? {
        return Ok(None);
    }
    Err(CheckFault::Bad { line: taken })
}

// What the line of a trial of the chosen group keeps, or none where it drops the trial.
fn judge_chosen(
    alloc: Global,
    trial: &[BorrowedRow],
    is_last: bool,
    line: &GroupLine,
    taken: u32,
) -> Result<Option<Vec<u32>>, CheckFault>
    requires { length trial.now < 2 ^ 32 }
    ensures { (place : ℕ) (rows : Seq Alive) (groups : Seq (Seq Member)) (number : ℕ) (trials : Seq (Seq TrialRow))
        → is_last ≡ is_empty trials
        → IsNext result taken (after_trial true place rows groups number trial.now trials line.now)
        (λ kept. kept_or_next place rows groups number trial.now trials (option_map (λ places. places.items) kept)) }
{
    match line {
        GroupLine::Keep(steps) => judge_keep(alloc, trial, steps.as_slice(), taken),
        GroupLine::Drop(steps) => judge_earlier(alloc, trial, is_last, steps.as_slice(), taken),
        _ => Err(CheckFault::Bad { line: taken }),
    }
}

fn check_next(
    alloc: Global,
    trial: &[BorrowedRow],
    is_last: bool,
    lines: &mut Lines,
) -> Result<Option<Vec<u32>>, CheckFault>
    requires { length trial.now < 2 ^ 32 }
    ensures { (known : Known) (place : ℕ) (rows : Seq Alive) (groups : Seq (Seq Member)) (number : ℕ)
        (trials : Seq (Seq TrialRow))
        → is_last ≡ is_empty trials
        → GoesOn result (checks known (AtTrial true place rows groups number (trial.now ∷ trials)) lines.old)
        (λ kept. checks known (kept_or_next place rows groups number trial.now trials (option_map (λ places. places.items) kept)) lines.new) }
{
    let line = next_group(alloc, lines)?;
    judge_chosen(alloc, trial, is_last, &line, lines.taken())
}

fn checked_at(
    alloc: Global,
    rows: &[AliveRow],
    place: u32,
    trials: u32,
    number: u32,
    trial: &[BorrowedRow],
    places: &[u32],
) -> Result<Checked, Memory>
    requires { trials ≡ choice_count rows.now }
    ensures { IfOk result (λ checked. checked ≡ checked_at place rows.now number trial.now places.now) }
{
    let group = group_of(alloc, rows, places)?;
    let resolved = resolved_at(alloc, rows, trials, number, trial, places)?;
    Ok(Checked {
        group,
        plan: resolved.plan,
        place,
        trial: number,
    })
}

// What is proved behind the last line.
fn finish(
    alloc: Global,
    rows: &[AliveRow],
    place: u32,
    trials: u32,
    number: u32,
    trial: &[BorrowedRow],
    places: &[u32],
    lines: &Lines,
) -> Result<Checked, CheckFault>
    requires { trials ≡ choice_count rows.now }
    ensures { (known : Known)
        → IsAnswer cause_of result (checks known (AtEnd place rows.now number trial.now places.now) lines.now) }
{
    if !lines.is_at_end() {
        return Err(missing(lines));
    }
    Ok(checked_at(alloc, rows, place, trials, number, trial, places)?)
}

/// Follows the lines of the chosen group's trials, to the end.
pub(crate) fn check_chosen(
    alloc: Global,
    rows: &[AliveRow],
    place: u32,
    count: u32,
    lines: &mut Lines,
) -> Result<Checked, CheckFault>
    requires count { count ≡ choice_count rows.now }
    requires few { length rows.now < 2 ^ 32 }
    ensures { (known : Known) (groups : Seq (Seq Member))
        → IsAnswer cause_of result
        (checks known (trying true place rows.now groups 0 (choices_of rows.now)) lines.old) }
{
    let mut trial = Vec::new(alloc);
    for number in 0..count {
        chosen_trial(rows, count, number, &mut trial)?;
        let chosen = trial.as_slice();
        if let Some(places) = check_next(alloc, chosen, number + 1 == count, lines)? {
            return finish(
                alloc,
                rows,
                place,
                count,
                number,
                chosen,
                places.as_slice(),
                lines,
            );
        }
    }
    Err(missing(lines))
}
