// What the children of a group say together.
ghost use Rattle.std.specs.Prelude.{◌≡◌, ◌||◌, IfOk, Some};
ghost use Rattle.std.specs.List.{filter_map, list_all, list_any};
ghost use Rattle.std.specs.Option.{option_copied};
ghost use Rattle.detect_core.specs.Answer.{is_pass, is_error, alive_row, alive_of};
ghost use Rattle.detect_core.specs.Kept.{kept_says, options_of};
ghost use Rattle.detect_core.specs.Judging.{IsJudged};

use crate::chosen::Verdict;
use crate::fitting::is_fit;
use crate::kept::Kept;
use bp_docs::PlanOption;
use cnb_toml::Target;
use cnb_world::{List, Memory};
use order_expand::Member;
use plan_resolve::{Alive, AliveRow};
use std::alloc::Global;

/// What the children of a group say together: the buildpacks that passed, where every required one did and there is
/// one, and whether one ended with an error.
#[derive(Drop)]
pub struct Judged {
    pub alive: Option<Alive>,
    pub erred: bool,
}

// What the child of a member offers, where the member is for the target and its child passed.
fn options_of<'a>(
    target: &Option<Target>,
    member: &Member,
    kept: &'a Kept,
) -> Option<&'a List<PlanOption>>
    ensures { option_copied result ≡ options_of (kept_says target.now kept.now member.now) }
{
    if !is_fit(target, member) {
        return None;
    }
    kept.options(&member.key)
}

/// Whether a member is for the target and its child passed.
pub fn passes(target: &Option<Target>, member: &Member, kept: &Kept) -> bool
    ensures { result ≡ is_pass (kept_says target.now kept.now member.now) }
{
    options_of(target, member, kept).is_some()
}

// Whether a member's child ended with an error. A member that is not for the target has no child.
fn errs(target: &Option<Target>, member: &Member, kept: &Kept) -> bool
    ensures { result ≡ is_error (kept_says target.now kept.now member.now) }
{
    if !is_fit(target, member) {
        return false;
    }
    kept.has_erred(&member.key)
}

/// Judges a group by the answers that are kept: members that are not for the target fail. Alternatives are copied only
/// where every required buildpack passed.
pub fn judge(
    alloc: Global,
    target: &Option<Target>,
    group: &[Member],
    kept: &Kept,
) -> Result<Judged, Memory>
    ensures { IfOk result (IsJudged (kept_says target.now kept.now) group.now) }
{
    let erred = has_erred(target, group, kept);
    let alive = alive_of(alloc, target, group, kept)?;
    Ok(Judged { alive, erred })
}

/// The members of a group that pass by the answers that are kept, where every required one does and there is one.
pub fn alive_of(
    alloc: Global,
    target: &Option<Target>,
    group: &[Member],
    kept: &Kept,
) -> Result<Option<Alive>, Memory>
    ensures { IfOk result (λ alive. alive ≡ alive_of (kept_says target.now kept.now) group.now) }
{
    if !have_required_passed(target, group, kept) || !has_passed(target, group, kept) {
        return Ok(None);
    }
    let rows = passed_rows(alloc, target, group, kept)?;
    Ok(Some(rows))
}

fn has_erred(target: &Option<Target>, group: &[Member], kept: &Kept) -> bool
    ensures { result ≡ list_any (λ member. is_error (kept_says target.now kept.now member)) group.now }
{
    group.iter().any(|member| errs(target, member, kept))
}

fn has_passed(target: &Option<Target>, group: &[Member], kept: &Kept) -> bool
    ensures { result ≡ list_any (λ member. is_pass (kept_says target.now kept.now member)) group.now }
{
    group.iter().any(|member| passes(target, member, kept))
}

fn have_required_passed(target: &Option<Target>, group: &[Member], kept: &Kept) -> bool
    ensures { result
        ≡ list_all (λ member. member.optional || is_pass (kept_says target.now kept.now member)) group.now }
{
    group
        .iter()
        .all(|member| member.optional || passes(target, member, kept))
}

// The members that passed, in order.
fn passed_rows(
    alloc: Global,
    target: &Option<Target>,
    group: &[Member],
    kept: &Kept,
) -> Result<Alive, Memory>
    ensures { IfOk result (λ rows. rows
        ≡ filter_map (λ member. alive_row member (kept_says target.now kept.now member)) group.now) }
{
    let mut rows = List::new(alloc);
    for member in group {
        if let Some(options) = options_of(target, member, kept) {
            rows.push(passed_row(alloc, member, options)?)?;
        }
    }
    Ok(rows)
}

fn passed_row(
    alloc: Global,
    member: &Member,
    options: &List<PlanOption>,
) -> Result<AliveRow, Memory>
    ensures { IfOk result (λ row. alive_row member.now (Verdict.Pass options.now) ≡ Some row) }
{
    let key = member.key.copy(alloc)?;
    let options = copy_options(alloc, options.as_slice())?;
    Ok(AliveRow {
        key,
        optional: member.optional,
        options,
    })
}

fn copy_options(alloc: Global, options: &[PlanOption]) -> Result<List<PlanOption>, Memory>
    ensures { IfOk result (λ copies. copies ≡ options.now) }
{
    let mut copies = List::new(alloc);
    for option in options {
        copies.push(option.copy(alloc)?)?;
    }
    Ok(copies)
}
