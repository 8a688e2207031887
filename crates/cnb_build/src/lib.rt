//! What the command `build` does: one after another it runs `bin/build` of the buildpacks of a group, each with its
//! Buildpack Plan and with what the layers of those before it give, and reads what each of them leaves.
#![tactic(auto)]

mod closing;
mod command;
mod descriptor;
mod fault;
mod frame;
mod given;
mod group;
mod job;
mod layers;
mod leaving;
mod one;
mod places;
mod plan;
mod preparing;
mod reading;
mod report;
mod running;

pub use command::build_command;
pub use fault::BuildFault;
pub use frame::{BuildFrame, Built};
pub use given::Given;
pub use group::build;
pub use report::built_text;
