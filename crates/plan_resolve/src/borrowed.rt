// Rows of a trial, borrowed from where they stand.
ghost use Rattle.std.specs.Prelude.{◌≡◌, IfOk};
ghost use Rattle.plan_resolve.specs.Choices.{chosen_row};

use crate::rows::{AliveRow, TrialRow};
use bp_docs::PlanOption;
use cnb_toml::Need;
use cnb_world::{Memory, Text};
use std::alloc::Global;
use std::marker::Model;

/// A row of a trial, borrowed, which contracts see as that row.
#[derive(Drop)]
pub struct BorrowedRow<'a> {
    optional: bool,
    provides: &'a [Text],
    needs: &'a [Need],
}

impl<'a> Model for BorrowedRow<'a> {
    ghost use Rattle.plan_resolve.specs.declared.rows.TrialRow.{TrialRow};
    ghost use Rattle.plan_resolve.specs.contracts.rows.TrialRow as trial_row;

    ghost Value = { TrialRow };

    ghost coded = { trial_row.the_row.coded };

    ghost view = { λ a. record { optional = a.optional; provides = a.provides.now; needs = a.needs.now } };
}

impl<'a> BorrowedRow<'a> {
    /// A row as it stands in a trial.
    pub fn of(row: &'a TrialRow) -> BorrowedRow<'a>
        ensures { result ≡ row.now }
    {
        BorrowedRow {
            optional: row.optional,
            provides: row.provides.as_slice(),
            needs: row.needs.as_slice(),
        }
    }

    /// The row that an alternative makes.
    pub fn chosen(row: &'a AliveRow, option: &'a PlanOption) -> BorrowedRow<'a>
        ensures { result ≡ chosen_row row.now option.now }
    {
        BorrowedRow {
            optional: row.optional,
            provides: option.provides.as_slice(),
            needs: option.needs.as_slice(),
        }
    }

    /// Whether a trial can pass without the row's buildpack.
    pub fn is_optional(&self) -> bool
        ensures { result ≡ self.now.optional }
    {
        self.optional
    }

    /// The names that the buildpack provides.
    pub fn provides(&self) -> &'a [Text]
        ensures { result.now ≡ self.now.provides }
    {
        self.provides
    }

    /// What the buildpack requires.
    pub fn needs(&self) -> &'a [Need]
        ensures { result.now ≡ self.now.needs }
    {
        self.needs
    }
}

/// The rows of a trial, borrowed.
pub fn borrow_rows<'a>(alloc: Global, trial: &'a [TrialRow]) -> Result<Vec<BorrowedRow<'a>>, Memory>
    ensures { IfOk result (λ rows. rows.items ≡ trial.now) }
{
    let mut rows = Vec::with_capacity(alloc, trial.len())?;
    for row in trial {
        rows.push(BorrowedRow::of(row))?;
    }
    Ok(rows)
}
