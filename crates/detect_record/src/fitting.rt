// Whether a step fits the places that are left.
ghost use Rattle.std.specs.Prelude.{◌≡◌};
ghost use Rattle.std.specs.List.{list_all};
ghost use Rattle.plan_resolve.specs.Trials.{holds, is_closed, is_in, is_provided, is_required};
ghost use Rattle.detect_record.specs.Record.{is_unmet, may_drop, step_fits, without};

use crate::parts::{Side, Step};
use cnb_toml::Need;
use cnb_world::Text;
use plan_resolve::{BorrowedRow, is_optional, provides, requires_name};

/// Whether a place left provides a name in time.
pub(crate) fn is_provided(trial: &[BorrowedRow], left: &[u32], place: u32, name: &str) -> bool
    ensures { result ≡ is_provided trial.now left.now place name.now }
{
    left.iter()
        .any(|other| *other <= place && provides(trial, *other, name))
}

/// Whether a place left requires a name in time.
pub(crate) fn is_required(trial: &[BorrowedRow], left: &[u32], place: u32, name: &str) -> bool
    ensures { result ≡ is_required trial.now left.now place name.now }
{
    left.iter().any(|other| place <= *other && requires_name(trial, *other, name))
}

fn is_unmet(trial: &[BorrowedRow], left: &[u32], step: Step) -> bool
    ensures { result ≡ is_unmet trial.now left.now step.place step.side step.name }
{
    let Some(row) = trial.get(step.place as usize) else {
        return false;
    };
    match step.side {
        Side::Required => match row.needs().get(step.name as usize) {
            Some(need) => !is_provided(trial, left, step.place, need.name.as_str()),
            None => false,
        },
        Side::Provided => match row.provides().get(step.name as usize) {
            Some(name) => !is_required(trial, left, step.place, name.as_str()),
            None => false,
        },
    }
}

fn is_left(left: &[u32], place: u32) -> bool
    ensures { result ≡ is_in place left.now }
{
    left.iter().any(|other| place == *other)
}

/// Whether the place of a step is left, and its name isn't met by the places left.
pub(crate) fn step_fits(trial: &[BorrowedRow], left: &[u32], step: Step) -> bool
    ensures { result ≡ step_fits trial.now left.now step }
{
    is_left(left, step.place) && is_unmet(trial, left, step)
}

/// Whether a trial can pass without the row of a step.
pub(crate) fn may_drop(trial: &[BorrowedRow], step: Step) -> bool
    ensures { result ≡ may_drop trial.now step }
{
    is_optional(trial, step.place)
}

/// Takes a place away.
pub(crate) fn drop_place(left: &mut Vec<u32>, place: u32)
    ensures { left.new.items ≡ without place left.old.items }
{
    left.retain(|other| !(*other == place));
}

fn are_provided(trial: &[BorrowedRow], left: &[u32], place: u32, needs: &[Need]) -> bool
    ensures { result ≡ list_all (λ need. is_provided trial.now left.now place need.name) needs.now }
{
    needs
        .iter()
        .all(|need| is_provided(trial, left, place, need.name.as_str()))
}

fn are_required(trial: &[BorrowedRow], left: &[u32], place: u32, names: &[Text]) -> bool
    ensures { result ≡ list_all (is_required trial.now left.now place) names.now }
{
    names
        .iter()
        .all(|name| is_required(trial, left, place, name.as_str()))
}

fn holds(trial: &[BorrowedRow], left: &[u32], place: u32) -> bool
    ensures { result ≡ holds trial.now left.now place }
{
    match trial.get(place as usize) {
        Some(row) => {
            are_provided(trial, left, place, row.needs())
                && are_required(trial, left, place, row.provides())
        }
        None => true,
    }
}

/// Whether each of the places left holds.
pub(crate) fn is_closed(trial: &[BorrowedRow], left: &[u32]) -> bool
    ensures { result ≡ is_closed trial.now left.now }
{
    left.iter().all(|place| holds(trial, left, *place))
}
