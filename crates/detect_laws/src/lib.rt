//! How a detection ends that has sound documents, as laws over any files.
//!
//! Each function here has a law as its contract and no body. The laws are about the steps that `detect` takes, which
//! cnb_detect proves of the command.
#![tactic(auto)]

mod alternatives;
mod recorded;
mod small;
mod sound;

pub use alternatives::plans_without_alternatives_have_few_trials;
pub use recorded::sound_recorded_detection_ends;
pub use small::a_small_detection_is_sound;
pub use sound::sound_detection_ends;
