//! The detection: which children are asked, and the first group and plan that pass.
#![tactic(auto)]

mod answers;
mod asking;
mod chosen;
mod deciding;
mod ending;
mod environment;
mod fitting;
mod job;
mod judging;
mod keeping;
mod kept;
mod questions;
mod search;
mod side_by_side;

pub use answers::answer;
pub use chosen::{AnswerRow, Chosen, DetectEnd, DetectFrame, Recorded, Verdict};
pub use deciding::answers_decide;
pub use ending::{group_of, have_options};
pub use fitting::is_fit;
pub use judging::{alive_of, passes};
pub use keeping::kept_of;
pub use kept::Kept;
pub use search::{detect, detect_recorded};
