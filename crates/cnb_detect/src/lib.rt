//! What the command `detect` does: it reads the order, the buildpacks, the target and the platform's environment files,
//! runs the detect children that have to be asked, chooses the first group and plan that pass, and writes both.
#![tactic(auto)]

mod choosing;
mod detection;
mod documents;
mod faults;
mod first_trial;
mod preparation;
mod refusal;
mod report;
mod target;

pub use choosing::choose_group;
pub use detection::detect;
pub use documents::write_choice;
pub use first_trial::first_trial_decides;
pub use preparation::{Prepared, prepare};
pub use refusal::DetectRefusal;
pub use report::choice_text;
pub use target::TargetSource;
