//! The documents of images and run images in a store: where they stand, and how they are read and written; and the
//! target that a work folder's `analyzed.toml` says.
#![tactic(auto)]

mod documents;
mod fault;
mod images;
mod paths;
mod run_part;
mod target;
mod writing;

pub use documents::find_document;
pub use fault::ImageFault;
pub use images::{read_image, read_run_image};
pub use paths::{image_path, images_folder, run_path, runs_folder};
pub use run_part::{base_of, image_env, push_run_rows};
pub use target::read_target;
pub use writing::{save_image, save_run_image};
