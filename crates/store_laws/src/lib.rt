//! What a store of trees has once an image is exported, as laws over any image and store.
//!
//! Each function here has a law as its contract and no body. The laws are about the steps that `export` and `create`
//! take, which cnb_export and cnb_create prove of the commands.
#![tactic(auto)]

mod saved;
mod stored;

pub use saved::{created_images_verify, exported_images_verify};
pub use stored::exported_trees_are_stored;
