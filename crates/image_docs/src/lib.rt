//! The documents of images, in this project's own layouts: run images, `analyzed.toml`, images with how they are launched,
//! and the layers that a cache keeps.
#![tactic(auto)]

mod analyzed;
mod base;
mod by;
mod cache_rows;
mod digest_text;
mod env_rows;
mod image;
mod launch_doc;
mod layer_row;
mod old_row;
mod row;
mod run_image;
mod store_row;

pub use analyzed::{Analyzed, read_analyzed, write_analyzed};
pub use base::Base;
pub use by::{plain, run_by};
pub use cache_rows::{CacheDoc, read_cache, write_cache};
pub use image::{ImageDoc, read_image, write_image};
pub use launch_doc::{LaunchDoc, read_launch_doc, write_launch_doc};
pub use layer_row::{LayerKey, LayerRow, layer_key};
pub use row::{Role, Row};
pub use run_image::{RunDoc, read_run, write_run};
pub use store_row::StoreRow;
