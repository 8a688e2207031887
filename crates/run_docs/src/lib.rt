//! The documents of one run of the lifecycle: those that its phases hand on, `group.toml` and `plan.toml`, and those that
//! a buildpack is given and leaves, its Buildpack Plan, `<layer>.toml`, `launch.toml`, `build.toml` and `store.toml`.
#![tactic(auto)]

mod bp_plan;
mod build;
mod group;
mod launch;
mod layer;
mod plan;
mod store;

pub use bp_plan::{BpPlan, read_bp_plan, write_bp_plan};
pub use build::{BuildToml, read_build, write_build};
pub use group::{GroupDoc, GroupRow, GroupTable, foreign_among, read_group, write_group};
pub use launch::{LaunchToml, read_launch, write_launch};
pub use layer::{LayerDoc, read_layer, write_layer};
pub use plan::{PlanDoc, PlanEntry, read_plan, write_plan};
pub use store::{StoreToml, read_store, write_store};
