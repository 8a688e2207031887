// The lines of groups.
ghost use Rattle.std.specs.Prelude.{◌≡◌, ◌≤◌, ◌<◌, ◌^◌, ◌+◌, ◌∷◌, ◌||◌, false, not, true, ℕ, Bool, List as Seq, IfOk};
ghost use Rattle.std.specs.Prelude.{length, slice_get};
ghost use Rattle.std.specs.List.{list_all, list_any};
ghost use Rattle.steps.specs.Causes.{IsAnswer};
ghost use Rattle.order_expand.specs.declared.member.Member.{Member as Listed};
ghost use Rattle.plan_resolve.specs.Choices.{choice_count, choices_of};
ghost use Rattle.detect_core.specs.Answer.{alive_of, is_fit, is_pass};
ghost use Rattle.detect_core.specs.Kept.{has_key, kept_says};
ghost use Rattle.detect_core.specs.Searching.{AreWithin};
ghost use Rattle.detect_record.specs.Checking.{cause_of};
ghost use Rattle.detect_record.specs.Proving.{answered_by, are_asked};
ghost use Rattle.detect_record.specs.LinesLeft.{LinesLeft};
ghost use Rattle.detect_record.specs.Record.{AtGroup, after_group, begun, begun_if, fails_at, stage_if, trying};
ghost use Rattle.detect_record.specs.Following.{GoesOn, IsNext, Known, checks, checks_on, found_or_next, has_trials};
ghost use Rattle.detect_record.specs.Following.{known_by};

use crate::asked::{are_all_met, met_in};
use crate::following::{missing, next_group, refused};
use crate::lines::Lines;
use crate::outcome::{CheckFault, Checked};
use crate::parts::GroupLine;
use crate::trials::{check_chosen, check_trials};
use cnb_toml::Target;
use detect_core::{Kept, alive_of, have_options, is_fit, passes};
use order_expand::{Member, Walk};
use plan_resolve::{Alive, AliveRow, trial_count};
use std::alloc::Global;

// Whether each member that is for the target has an answer.
fn have_answers(target: &Option<Target>, group: &[Member], kept: &Kept) -> bool
    ensures { result
        ≡ list_all (λ member. not (is_fit target.now member) || has_key kept.now member.key) group.now }
{
    group
        .iter()
        .all(|member| !is_fit(target, member) || kept.has(&member.key))
}

fn has_passed(target: &Option<Target>, group: &[Member], kept: &Kept) -> bool
    ensures { result ≡ list_any (λ member. is_pass (kept_says target.now kept.now member)) group.now }
{
    group.iter().any(|member| passes(target, member, kept))
}

// Whether the member of a number is required and doesn't pass.
fn fails_at(target: &Option<Target>, group: &[Member], kept: &Kept, number: u32) -> bool
    ensures { result ≡ fails_at (kept_says target.now kept.now) (slice_get group.now number) }
{
    match group.get(number as usize) {
        Some(member) => !member.optional && !passes(target, member, kept),
        None => false,
    }
}

// Whether there are so many trials, and not too many. A buildpack without alternatives leaves none.
fn has_trials(rows: &[AliveRow], count: u32) -> bool
    ensures { result ≡ has_trials rows.now count }
{
    if !have_options(rows) {
        return count == 0;
    }
    match trial_count(rows) {
        Some(trials) => trials == count,
        None => false,
    }
}

// The members of an alive group that pass, where it has so many trials.
fn begin(
    alloc: Global,
    target: &Option<Target>,
    group: &[Member],
    kept: &Kept,
    count: u32,
    taken: u32,
) -> Result<Alive, CheckFault>
    requires { length group.now ≤ 256 }
    ensures next { (chosen : Bool) (place : ℕ) (groups : Seq (Seq Listed))
        → IsNext result taken (begun chosen place (alive_of (kept_says target.now kept.now) group.now) groups count)
        (λ rows. trying chosen place rows groups 0 (choices_of rows)) }
    ensures count { IfOk result (λ rows. count ≡ choice_count rows) }
    ensures few { IfOk result (λ rows. length rows < 2 ^ 32) }
{
    let Some(alive) = alive_of(alloc, target, group, kept)? else {
        return Err(CheckFault::Bad { line: taken });
    };
    if !has_trials(alive.as_slice(), count) {
        return Err(CheckFault::Bad { line: taken });
    }
    Ok(alive)
}

// Follows the lines of an alive group of which each trial fails.
fn check_failing(
    alloc: Global,
    target: &Option<Target>,
    group: &[Member],
    kept: &Kept,
    count: u32,
    lines: &mut Lines,
) -> Result<Option<Checked>, CheckFault>
    requires { length group.now ≤ 256 }
    ensures { (place : ℕ) (groups all : Seq (Seq Listed))
        → GoesOn result (checks_on (known_by target.now kept.now all)
        (begun false place (alive_of (kept_says target.now kept.now) group.now) groups count) lines.old)
        (found_or_next (known_by target.now kept.now all) place groups lines.new) }
{
    let alive = begin(alloc, target, group, kept, count, lines.taken())?;
    check_trials(alloc, alive.as_slice(), count, lines)?;
    Ok(None)
}

// Follows the lines of the chosen group, to the end, where all answered buildpacks were met.
fn check_passing(
    alloc: Global,
    target: &Option<Target>,
    group: &[Member],
    kept: &Kept,
    place: u32,
    all_met: bool,
    count: u32,
    lines: &mut Lines,
) -> Result<Option<Checked>, CheckFault>
    requires { length group.now ≤ 256 }
    ensures { (groups all : Seq (Seq Listed))
        → GoesOn result (checks_on (known_by target.now kept.now all) (begun_if all_met
        (begun true place (alive_of (kept_says target.now kept.now) group.now) groups count)) lines.old)
        (found_or_next (known_by target.now kept.now all) place groups lines.new) }
{
    if !all_met {
        return Err(refused(lines));
    }
    let alive = begin(alloc, target, group, kept, count, lines.taken())?;
    let checked = check_chosen(alloc, alive.as_slice(), place, count, lines)?;
    Ok(Some(checked))
}

// A group is passed over where its line meets its rule.
fn pass_over(met: bool, taken: u32) -> Result<Option<Checked>, CheckFault>
    ensures { (known : Known) (place : ℕ) (groups : Seq (Seq Listed)) (lines : LinesLeft) → lines.taken ≡ taken
        → GoesOn result (checks_on known (stage_if met (AtGroup (place + 1) groups)) lines)
        (found_or_next known place groups lines) }
{
    if met {
        return Ok(None);
    }
    Err(CheckFault::Bad { line: taken })
}

// Follows the line of a group, and those of its trials.
fn follow(
    alloc: Global,
    target: &Option<Target>,
    group: &[Member],
    kept: &Kept,
    place: u32,
    all_met: bool,
    line: &GroupLine,
    lines: &mut Lines,
) -> Result<Option<Checked>, CheckFault>
    requires { length group.now ≤ 256 }
    ensures { (groups all : Seq (Seq Listed)) → all_met ≡ are_asked target.now kept.now all place
        → GoesOn result (checks_on (known_by target.now kept.now all)
        (after_group (answered_by target.now kept.now all) place group.now groups line.now) lines.old)
        (found_or_next (known_by target.now kept.now all) place groups lines.new) }
{
    match line {
        GroupLine::Fails(number) => {
            pass_over(fails_at(target, group, kept, *number), lines.taken())
        }
        GroupLine::Idle => pass_over(!has_passed(target, group, kept), lines.taken()),
        GroupLine::Trials(count) => check_failing(alloc, target, group, kept, *count, lines),
        GroupLine::Chosen(count) => {
            check_passing(alloc, target, group, kept, place, all_met, *count, lines)
        }
        GroupLine::Drop(_) | GroupLine::Keep(_) => Err(refused(lines)),
    }
}

fn check_group(
    alloc: Global,
    target: &Option<Target>,
    group: &[Member],
    kept: &Kept,
    place: u32,
    all_met: bool,
    lines: &mut Lines,
) -> Result<Option<Checked>, CheckFault>
    requires { length group.now ≤ 256 }
    ensures { (groups all : Seq (Seq Listed)) → all_met ≡ are_asked target.now kept.now all place
        → GoesOn result (checks (known_by target.now kept.now all) (AtGroup place (group.now ∷ groups)) lines.old)
        (found_or_next (known_by target.now kept.now all) place groups lines.new) }
{
    let line = next_group(alloc, lines)?;
    if !have_answers(target, group, kept) {
        return Err(refused(lines));
    }
    follow(alloc, target, group, kept, place, all_met, &line, lines)
}

/// Follows the lines of all groups, from the first on, to the end.
pub(crate) fn check_groups(
    alloc: Global,
    walk: &mut Walk<'_>,
    target: &Option<Target>,
    kept: &Kept,
    lines: &mut Lines,
) -> Result<Checked, CheckFault>
    requires { AreWithin walk.old }
    ensures { IsAnswer cause_of result (checks (known_by target.now kept.now walk.old) (AtGroup 0 walk.old) lines.old) }
{
    let mut met = Some(0);
    let mut place = 0u32;
    while let Some(group) = walk.next()? {
        let group = group.as_slice();
        met = met_in(met, target, group, kept);
        let all_met = are_all_met(met, kept);
        if let Some(checked) = check_group(alloc, target, group, kept, place, all_met, lines)? {
            return Ok(checked);
        }
        place += 1;
    }
    Err(missing(lines))
}
