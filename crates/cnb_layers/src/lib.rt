//! What the buildpacks of a group left: their documents are read, what becomes of each layer is settled by its flags,
//! and the trees of the layers that go into an image are put into a store of trees.
#![tactic(auto)]

mod buildpack;
mod fault;
mod folder;
mod frame;
mod gathered;
mod gathering;
mod layer;
mod names;
mod patterns;
mod reading;
mod settling;

pub use buildpack::export_group;
pub use fault::ExportFault;
pub use folder::contents_folder;
pub use frame::ExportFrame;
pub use gathered::{Gathered, ImageLayer};
pub use gathering::copy_layer;
pub use reading::{read_document, value_at};
