//! The slices of an application: which of its paths a slice's patterns match, and the trees that the application is cut
//! into, one for each slice that has something and one for the rest. buildpack.md, "Layers", has the `slices` of
//! `launch.toml`.
#![tactic(auto)]

mod cutting;
mod fault;
mod first;
mod item;
mod matching;
mod pattern;
mod reading;
mod slot;
mod slot_entries;
mod trees;

pub use cutting::cut;
pub use fault::PatternFault;
pub use item::{Item, Range};
pub use pattern::Pattern;
