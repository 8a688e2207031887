//! Trees in files: reading a folder as a tree, laying a tree over files, and a store that keeps trees under their
//! digests.
#![tactic(auto)]

mod caching;
mod checking;
mod fault;
mod folders;
mod held_tree;
mod kept_bytes;
mod laws;
mod laying;
mod laying_held;
mod laying_kept;
mod naming;
mod origin;
mod putting;
mod reading;
mod receivers;
mod store;
mod target;
mod writing;

pub use caching::{cache_folder, cache_rows, digest_folder};
pub use checking::TreeCheck;
pub use fault::StoreFault;
pub use folders::{check_tree, lay_stored, put_folder};
pub use laws::read_trees_match;
pub use laying::write_tree;
pub use laying_held::{HeldFault, lay_held};
pub use reading::read_tree;
pub use store::{get, has, put};
