//! The documents that buildpacks and orders are written in: `buildpack.toml`, the order, the Build Plan.
#![tactic(auto)]

mod build_plan;
mod buildpack;
mod descriptor;
mod order;
mod targets;

pub use build_plan::{PlanOption, read_build_plan};
pub use buildpack::read_buildpack;
pub use descriptor::{Body, Descriptor, Entry, Order, TargetRule};
pub use order::read_order;
pub use targets::{Targets, fits};
