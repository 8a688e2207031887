//! Which of a group's alternatives hold together, and the plan that they make.
#![tactic(auto)]

mod borrowed;
mod choosing;
mod kept_rows;
mod plan;
mod prefix;
mod pruning;
mod resolution;
mod rows;
mod trial;

pub use borrowed::BorrowedRow;
pub use choosing::{chosen_trial, trial_count};
pub use pruning::{has_name, has_need, is_optional, numbers_below, provides, requires_name};
pub use resolution::{PlanFault, resolve, resolved_at};
pub use rows::{Alive, AliveRow, Resolved, Trial, TrialRow};
pub use trial::kept;
