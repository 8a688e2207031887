//! What becomes of a layer between two builds: the flags that its buildpack gave it, and the two tables that
//! decide by them what `restore` lays back before the build and what `export` does with it afterwards.
//!
//! The flags are those of buildpack.md, "Layer Types"; the phases are platform.md's `restorer` and `exporter`.
//! `docs/LAYERS.md` has both tables for a reader, and the laws above them.
#![tactic(auto)]

mod export;
mod flags;
mod restore;

pub use export::{ExportRow, export_row};
pub use flags::Flags;
pub use restore::{RestoreRow, restore_row};
