//! Caches. A list of shelves and the numbers of those that stand: each call goes through these in order, and drops
//! exactly those that fail in it, from any place. A dropped shelf is moved to the end of the list and not called
//! again.
#![tactic(auto)]

mod ask;
mod caches;
mod caching;
mod gathering;
mod giving;
mod laying;
mod restoring;
mod searching;
mod storing;
mod turns;

pub use caches::Caches;
pub use caching::store_all;
pub use gathering::{Gathered, gather};
pub use restoring::{Found, Search, restore_tree};
pub use turns::Shelves;
