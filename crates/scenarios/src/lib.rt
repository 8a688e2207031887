//! Rows of data for the top call: what a run in memory is given, and how what came of it differs from what is wanted.
//!
//! A file of rows is TOML; crates/cnb_rows/data/README.md says how a row is written. This crate runs nothing.
//!
//! Its calls take an `Answer`, to which they add what differs, and which keeps the first fault of a row or of memory.
//! Where there is a fault, they go on with something empty in its place.
#![tactic(auto)]

mod came;
mod chain;
mod compared_caches;
mod compared_files;
mod comparison;
mod cut;
mod documents;
mod failed;
mod folder;
mod given;
mod items;
mod keys;
mod outage;
mod replies;
mod shelves;
mod sides;
mod sink;
mod spelling;
mod standing;
mod taking;
mod trees;

pub use came::Came;
pub use chain::Chain;
pub use comparison::Comparison;
pub use folder::Scenarios;
pub use outage::Outage;
pub use row_files::{Answer, Fields, RowFault};
pub use shelves::{Holding, push_holdings};
pub use sides::compare;
pub use sink::PieceSink;
pub use standing::Standing;
pub use taking::path_of;
