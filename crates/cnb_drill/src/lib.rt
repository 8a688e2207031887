//! A detection whose end is known beforehand: an order of 4,096 groups, spawners with fixed replies by which the group
//! of a given number is the first that passes, and four trees whose bytes are counted.
#![tactic(auto)]

mod catalog;
mod detection;
mod keys;
mod order;
mod replies;
mod report;
mod spawners;
mod trees;

pub use report::drill;
pub use spawners::drill_spawners;
