//! What the commands `prune` and `verify` do: they remove the tree files that no document of a store names, and see
//! that each tree of an image is there and undamaged.
#![tactic(auto)]

mod digits;
mod documents;
mod fault;
mod fault_causes;
mod listing;
mod named;
mod pruning;
mod report;
mod surveying;
mod trees;
mod verifying;

pub use fault::{PruneFault, VerifyFault};
pub use pruning::{prune, prune_command};
pub use surveying::Pruned;
pub use verifying::{verify, verify_command};
