//! Documents in files: what is read and written, and why it was not.
#![tactic(auto)]

mod document;
mod fault;
mod folder;
mod writing;

pub use document::{bytes_of, read_document, read_limited};
pub use fault::{ReadFault, blamed, read_at};
pub use folder::{is_folder, list_names};
pub use writing::{FileRefusal, write_document};
