//! Where a buildpack's layers and their documents stand in the layers folder, and which layers have a document there.
#![tactic(auto)]

mod names;
mod paths;

pub use names::layers_among;
pub use paths::{contents_path, layer_document, layers_folder};
