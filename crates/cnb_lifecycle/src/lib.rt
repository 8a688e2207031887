//! The lifecycle's commands: from the words to the exit status, over any files, detect children and output.
//!
//! `lifecycle` reads the words, has the command's crate do its steps and writes the text of its end.
//! Served are the commands that build an image and launch it (platform.md, "detector" to "launcher"), and `base`,
//! `unpack`, `show` and `drill`, which are this project's own.
#![tactic(auto)]

mod answer;
mod caches;
mod commands;
mod detail;
mod drilling;
mod faults;
mod launching;
mod phase_faults;
mod phases;
mod printing;
mod refusal;
mod report;
mod running;
mod status;
mod top;

pub use answer::Answer;
pub use refusal::Refusal;
pub use status::Status;
pub use top::lifecycle;
