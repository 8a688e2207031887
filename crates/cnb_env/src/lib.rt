//! What goes into the environment of a child.
#![tactic(auto)]

mod apply;
mod apply_folder;
mod base;
mod build;
mod buildpack;
mod file;
mod files;
mod folder;
mod launch;
mod layers;
mod names;
mod paths;
mod variables;

pub use apply::apply_file;
pub use apply_folder::env_folder;
pub use base::{base_env, set_path, set_target};
pub use build::build_env;
pub use buildpack::{buildpack_folder, plan_name};
pub use doc_files::ReadFault as EnvFault;
pub use file::contents;
pub use files::{EnvFile, platform_files};
pub use launch::launch_env;
pub use layers::{LayerSet, Phase};
pub use paths::{When, layer_paths};
pub use variables::platform;
