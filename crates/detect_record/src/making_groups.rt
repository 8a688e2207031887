// The lines of groups in the record that is made.
ghost use Rattle.std.specs.Prelude.{◌≡◌, ◌≤◌, ◌+◌, ◌&&◌, ◌++◌, ◌∷◌, IfOk, OnOk, drop, flat_map, map, not, position};
ghost use Rattle.std.specs.Prelude.{slice_get, take};
ghost use Rattle.plan_resolve.specs.Choices.{choice_count, choices_of};
ghost use Rattle.detect_core.specs.Answer.{alive_of, is_pass};
ghost use Rattle.detect_core.specs.Kept.{kept_says};
ghost use Rattle.detect_record.specs.declared.parts.GroupLine.TheVariants.{Chosen, Trials};
ghost use Rattle.detect_record.specs.Canonical.{dead_line, first_failing, line_of};
ghost use Rattle.detect_record.specs.GroupTexts.{chosen_by, chosen_lines, group_whole, groups_whole, passed_whole};
ghost use Rattle.detect_record.specs.Making.{trial_whole};
ghost use Rattle.detect_record.specs.RecordText.{IsPutBehind};

use crate::making::put_group_line;
use crate::outcome::RecordFault;
use crate::parts::GroupLine;
use crate::record_text::RecordText;
use crate::trial_line::{line_of, number_of};
use cnb_toml::Target;
use cnb_world::Memory;
use detect_core::{Kept, alive_of, have_options, passes};
use order_expand::{Member, Walk};
use plan_resolve::{AliveRow, BorrowedRow, chosen_trial, trial_count};
use std::alloc::Global;

fn put_trial(alloc: Global, trial: &[BorrowedRow], text: &mut RecordText) -> Result<(), RecordFault>
    ensures { IsPutBehind text.old (trial_whole trial.now) text.new result }
{
    let line = line_of(alloc, trial)?;
    put_group_line(alloc, &line, text)
}

// Writes the lines of the first trials.
fn put_trials(
    alloc: Global,
    rows: &[AliveRow],
    count: u32,
    last: u32,
    text: &mut RecordText,
) -> Result<(), RecordFault>
    requires count { count ≡ choice_count rows.now }
    requires within { last ≤ count }
    ensures { IsPutBehind text.old (flat_map trial_whole (take last (choices_of rows.now))) text.new result }
{
    let mut trial = Vec::new(alloc);
    for number in 0..last {
        chosen_trial(rows, count, number, &mut trial)?;
        match put_trial(alloc, trial.as_slice(), text) {
            Ok(()) => {}
            Err(fault) => return Err(fault),
        }
    }
    Ok(())
}

// How many trials there are. A buildpack without alternatives leaves none.
#[tactic(auto, using(crate::proofs::GroupTextLemmas::none_counted))]
fn count_of(rows: &[AliveRow]) -> Result<u32, Memory>
    ensures { IfOk result (λ count. count ≡ choice_count rows.now) }
{
    if !have_options(rows) {
        return Ok(0);
    }
    match trial_count(rows) {
        Some(count) => Ok(count),
        None => Err(Memory),
    }
}

fn put_count(alloc: Global, count: u32, text: &mut RecordText) -> Result<(), RecordFault>
    ensures { IsPutBehind text.old (group_whole (Trials count)) text.new result }
{
    put_group_line(alloc, &GroupLine::Trials(count), text)
}

fn put_chosen_count(alloc: Global, count: u32, text: &mut RecordText) -> Result<(), RecordFault>
    ensures { IsPutBehind text.old (group_whole (Chosen count)) text.new result }
{
    put_group_line(alloc, &GroupLine::Chosen(count), text)
}

fn put_failing(alloc: Global, rows: &[AliveRow], text: &mut RecordText) -> Result<(), RecordFault>
    ensures { IsPutBehind text.old
        (flat_map group_whole (Trials (choice_count rows.now) ∷ map line_of (choices_of rows.now))) text.new result }
{
    let count = count_of(rows)?;
    match put_count(alloc, count, text) {
        Ok(()) => put_trials(alloc, rows, count, count, text),
        Err(fault) => Err(fault),
    }
}

fn put_passing(
    alloc: Global,
    rows: &[AliveRow],
    trial: u32,
    text: &mut RecordText,
) -> Result<(), RecordFault>
    ensures { IsPutBehind text.old (flat_map group_whole
        (Chosen (choice_count rows.now) ∷ map line_of (take (trial + 1) (choices_of rows.now)))) text.new result }
{
    let count = count_of(rows)?;
    if trial >= count {
        return Err(RecordFault::Memory);
    }
    match put_chosen_count(alloc, count, text) {
        Ok(()) => put_trials(alloc, rows, count, trial + 1, text),
        Err(fault) => Err(fault),
    }
}

fn failing_place(target: &Option<Target>, group: &[Member], kept: &Kept) -> Option<usize>
    ensures { result ≡ position (λ member. not member.optional
        && not (is_pass (kept_says target.now kept.now member))) group.now }
{
    group
        .iter()
        .position(|member| !member.optional && !passes(target, member, kept))
}

// The number of the first required member that doesn't pass.
#[tactic(auto, using(crate::proofs::GroupTextLemmas::failing_is))]
fn first_failing(target: &Option<Target>, group: &[Member], kept: &Kept) -> Option<usize>
    ensures { result ≡ first_failing (kept_says target.now kept.now) 0 group.now }
{
    failing_place(target, group, kept)
}

fn dead_line(target: &Option<Target>, group: &[Member], kept: &Kept) -> Result<GroupLine, Memory>
    ensures { IfOk result (λ line. line ≡ dead_line (kept_says target.now kept.now) group.now) }
{
    match first_failing(target, group, kept) {
        Some(member) => Ok(GroupLine::Fails(number_of(member)?)),
        None => Ok(GroupLine::Idle),
    }
}

fn put_dead(
    alloc: Global,
    target: &Option<Target>,
    group: &[Member],
    kept: &Kept,
    text: &mut RecordText,
) -> Result<(), RecordFault>
    ensures { IsPutBehind text.old (group_whole (dead_line (kept_says target.now kept.now) group.now)) text.new result }
{
    let line = dead_line(target, group, kept)?;
    put_group_line(alloc, &line, text)
}

// Writes the lines of a group of which no trial passes.
fn put_passed(
    alloc: Global,
    target: &Option<Target>,
    group: &[Member],
    kept: &Kept,
    text: &mut RecordText,
) -> Result<(), RecordFault>
    ensures { IsPutBehind text.old (passed_whole (kept_says target.now kept.now) group.now) text.new result }
{
    match alive_of(alloc, target, group, kept)? {
        Some(rows) => put_failing(alloc, rows.as_slice(), text),
        None => put_dead(alloc, target, group, kept, text),
    }
}

// Writes the lines of the chosen group.
fn put_chosen(
    alloc: Global,
    target: &Option<Target>,
    group: &[Member],
    kept: &Kept,
    trial: u32,
    text: &mut RecordText,
) -> Result<(), RecordFault>
    ensures { IsPutBehind text.old
        (flat_map group_whole (chosen_by trial (alive_of (kept_says target.now kept.now) group.now))) text.new result }
{
    match alive_of(alloc, target, group, kept)? {
        Some(rows) => put_passing(alloc, rows.as_slice(), trial, text),
        None => Ok(()),
    }
}

// Writes the lines of the first groups, of which no trial passes.
fn put_passed_groups(
    alloc: Global,
    walk: &mut Walk,
    target: &Option<Target>,
    kept: &Kept,
    place: u32,
    text: &mut RecordText,
) -> Result<(), RecordFault>
    ensures put { IsPutBehind text.old
        (flat_map (passed_whole (kept_says target.now kept.now)) (take place walk.old)) text.new result }
    ensures walk { OnOk result (walk.new ≡ drop place walk.old) }
{
    for number in 0..place {
        let Some(group) = walk.next()? else {
            return Err(RecordFault::Memory);
        };
        match put_passed(alloc, target, group.as_slice(), kept, text) {
            Ok(()) => {}
            Err(fault) => return Err(fault),
        }
    }
    Ok(())
}

fn put_last_group(
    alloc: Global,
    walk: &mut Walk,
    target: &Option<Target>,
    kept: &Kept,
    trial: u32,
    text: &mut RecordText,
) -> Result<(), RecordFault>
    ensures { IsPutBehind text.old (flat_map group_whole
        (chosen_lines (kept_says target.now kept.now) trial (slice_get walk.old 0))) text.new result }
{
    let Some(group) = walk.next()? else {
        return Err(RecordFault::Memory);
    };
    put_chosen(alloc, target, group.as_slice(), kept, trial, text)
}

/// Writes the lines of the groups up to the chosen one, by its place and the number of its first passing trial.
pub(crate) fn put_groups(
    alloc: Global,
    walk: &mut Walk,
    target: &Option<Target>,
    kept: &Kept,
    place: u32,
    trial: u32,
    text: &mut RecordText,
) -> Result<(), RecordFault>
    ensures { IsPutBehind text.old (groups_whole (kept_says target.now kept.now) place trial walk.old) text.new result }
{
    match put_passed_groups(alloc, walk, target, kept, place, text) {
        Ok(()) => put_last_group(alloc, walk, target, kept, trial, text),
        Err(fault) => Err(fault),
    }
}
