// Which buildpacks of a trial hold together: those that do not are taken away until nothing changes.
ghost use Rattle.std.specs.Prelude.{◌≡◌, ◌<◌, ◌≤◌, ◌^◌, IsTrue, IfOk, IfSome, IfNone, None, length, reverse, slice_get};
ghost use Rattle.std.specs.Prelude.{slice_index};
ghost use Rattle.std.specs.Bool.{OnTrue, OnFalse};
ghost use Rattle.std.specs.Option.{option_map};
ghost use Rattle.std.specs.List.{list_all};
ghost use Rattle.plan_resolve.specs.Trials.{has_name, has_need, provided_at, required_at, holds, is_optional_at};
ghost use Rattle.plan_resolve.specs.Trials.{is_closed, numbers_below, kept_of};
ghost use Rattle.plan_resolve.specs.Pruning.{is_ascending, is_provided_by, is_required_by, row_holds, fails};
ghost use Rattle.plan_resolve.specs.Pruning.{required_hold, IsOnTheWay};

use crate::borrowed::BorrowedRow;
use cnb_toml::Need;
use cnb_world::{Memory, Text};
use std::alloc::Global;

/// Whether a name is among these.
pub fn has_name(names: &[Text], name: &str) -> bool
    ensures { result ≡ has_name names.now name.now }
{
    names.iter().any(|other| name == other.as_str())
}

/// Whether one of the requirements has the name.
pub fn has_need(needs: &[Need], name: &str) -> bool
    ensures { result ≡ has_need needs.now name.now }
{
    needs.iter().any(|need| name == need.name.as_str())
}

/// Whether the buildpack at a place provides a name; past the end nobody does.
pub fn provides(trial: &[BorrowedRow], place: u32, name: &str) -> bool
    ensures { result ≡ has_name (provided_at trial.now place) name.now }
{
    match trial.get(place as usize) {
        Some(row) => has_name(row.provides(), name),
        None => false,
    }
}

/// Whether the buildpack at a place requires a name; past the end nobody does.
pub fn requires_name(trial: &[BorrowedRow], place: u32, name: &str) -> bool
    ensures { result ≡ has_need (required_at trial.now place) name.now }
{
    match trial.get(place as usize) {
        Some(row) => has_need(row.needs(), name),
        None => false,
    }
}

fn is_provided_by(trial: &[BorrowedRow], places: &[u32], name: &str) -> bool
    ensures { result ≡ is_provided_by trial.now (reverse places.now) name.now }
{
    places
        .iter()
        .rev()
        .any(|place| provides(trial, *place, name))
}

fn is_required_by(trial: &[BorrowedRow], places: &[u32], name: &str) -> bool
    ensures { result ≡ is_required_by trial.now places.now name.now }
{
    places
        .iter()
        .any(|place| requires_name(trial, *place, name))
}

/// Whether each of these requirements is provided by one of the places.
pub fn are_provided(trial: &[BorrowedRow], before: &[u32], needs: &[Need]) -> bool
    ensures { result ≡ list_all (λ need. is_provided_by trial.now (reverse before.now) need.name) needs.now }
{
    needs
        .iter()
        .all(|need| is_provided_by(trial, before, need.name.as_str()))
}

fn are_required(trial: &[BorrowedRow], behind: &[u32], names: &[Text]) -> bool
    ensures { result ≡ list_all (is_required_by trial.now behind.now) names.now }
{
    names
        .iter()
        .all(|name| is_required_by(trial, behind, name.as_str()))
}

/// Whether a buildpack holds by the places before and behind it, its own among both.
fn row_holds(trial: &[BorrowedRow], before: &[u32], behind: &[u32], row: &BorrowedRow) -> bool
    ensures { result ≡ row_holds trial.now before.now behind.now row.now }
{
    are_provided(trial, before, row.needs()) && are_required(trial, behind, row.provides())
}

/// Whether the buildpack at a place of an ascending set holds. It is looked for outwards, since most stand near.
fn holds(trial: &[BorrowedRow], set: &[u32], index: usize) -> bool
    requires within { index < length set.now }
    requires ascending { IsTrue (is_ascending set.now) }
    ensures { result ≡ holds trial.now set.now (slice_index set.now index) }
{
    let (before, behind) = (&set[..index + 1], &set[index..]);
    match trial.get(set[index] as usize) {
        Some(row) => row_holds(trial, before, behind, row),
        None => true,
    }
}

/// Whether a trial can pass without the buildpack at a place.
pub fn is_optional(trial: &[BorrowedRow], place: u32) -> bool
    ensures { result ≡ is_optional_at (slice_get trial.now place) }
{
    match trial.get(place as usize) {
        Some(row) => row.is_optional(),
        None => true,
    }
}

/// Takes those places of a set away, from the last to the first, that do not hold among the ones that are left. False
/// where a required one does not.
fn sweep(trial: &[BorrowedRow], set: &mut Vec<u32>) -> bool
    requires { IsOnTheWay trial.now set.old.items }
    ensures way { OnTrue result (IsOnTheWay trial.now set.new.items) }
    ensures fails { OnFalse result (kept_of trial.now ≡ None) }
    ensures fewer { length set.new.items ≤ length set.old.items }
    ensures closed { OnTrue result (length set.new.items ≡ length set.old.items
        → IsTrue (is_closed trial.now set.new.items)) }
{
    let all = set.len();
    let mut index = all;
    while index > 0 {
        index -= 1;
        if !holds(trial, set.as_slice(), index) {
            if !is_optional(trial, set[index]) {
                return false;
            }
            let _place = set.remove(index);
        }
    }
    true
}

/// Whether a required buildpack of a set does not hold.
fn fails(trial: &[BorrowedRow], set: &[u32], index: usize) -> bool
    requires within { index < length set.now }
    requires ascending { IsTrue (is_ascending set.now) }
    ensures { result ≡ fails trial.now set.now (slice_index set.now index) }
{
    !is_optional(trial, set[index]) && !holds(trial, set, index)
}

/// Where in a set a required buildpack does not hold, if one does not. The likeliest index is looked at first.
pub fn failing(trial: &[BorrowedRow], set: &[u32], likely: usize) -> Option<usize>
    requires { IsTrue (is_ascending set.now) }
    ensures within { IfSome result (λ index. index < length set.now) }
    ensures fails { IfSome result (λ index. IsTrue (fails trial.now set.now (slice_index set.now index))) }
    ensures none { IfNone result (IsTrue (required_hold trial.now set.now)) }
{
    if likely < set.len() && fails(trial, set, likely) {
        return Some(likely);
    }
    for index in 0..set.len() {
        if fails(trial, set, index) {
            return Some(index);
        }
    }
    None
}

/// The numbers below a count, ascending.
pub fn numbers_below(alloc: Global, count: u32) -> Result<Vec<u32>, Memory>
    ensures { IfOk result (λ numbers. numbers.items ≡ numbers_below count) }
{
    let mut numbers = Vec::with_capacity(alloc, count as usize)?;
    for number in 0..count {
        numbers.push(number)?;
    }
    Ok(numbers)
}

/// The places that a trial keeps, ascending, or none where the trial fails.
pub fn kept_places(alloc: Global, trial: &[BorrowedRow]) -> Result<Option<Vec<u32>>, Memory>
    requires { length trial.now < 2 ^ 32 }
    ensures { IfOk result (λ kept. option_map (λ places. places.items) kept ≡ kept_of trial.now) }
{
    let mut set = numbers_below(alloc, trial.len() as u32)?;
    'rounds: loop {
        let all = set.len();
        if !sweep(trial, &mut set) {
            return Ok(None);
        }
        if set.len() == all {
            return Ok((!set.is_empty()).then_some(set));
        }
    }
}
