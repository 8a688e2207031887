//! Which groups an order stands for, once every composite buildpack in it is replaced by the groups of its own order.
#![tactic(auto)]

mod begun;
mod catalog;
mod count;
mod fault;
mod fingerprints;
mod member;
mod met;
mod nesting;
mod order;
mod size;
mod table;
mod walk;

pub use catalog::{Catalog, CatalogFault};
pub use member::{Group, Member};
pub use order::{OrderFault, check};
pub use walk::Walk;
