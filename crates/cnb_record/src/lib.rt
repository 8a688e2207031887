//! What is done with the record of a detection: `detect` leaves it where that is asked for, and `check` compares it
//! with the order, the buildpacks and the documents of a choice.
#![tactic(auto)]

mod checking;
mod choosing;
mod detection;
mod faults;
mod metadata;
mod ordering;
mod reading;
mod refusal;
mod report;
mod same;

pub use checking::check;
pub use choosing::{RecordedChoice, choose_recorded};
pub use detection::detect_recorded;
pub use ordering::Ordered;
pub use refusal::CheckRefusal;
