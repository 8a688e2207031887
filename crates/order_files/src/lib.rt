//! The order and the buildpacks of a catalog, read from files.
#![tactic(auto)]

mod catalog;
mod descriptor;
mod order;
mod version;

pub use catalog::read_catalog;
pub use doc_files::ReadFault;
pub use order::read_order_file;
