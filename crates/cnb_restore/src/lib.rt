//! What the commands `analyze` and `restore` do: they look at the run image and the previous image, and each buildpack
//! finds in its layers folder what it left there the last time, from the previous image and from caches.
#![tactic(auto)]

mod analysis;
mod buildpack;
mod command_analyze;
mod command_restore;
mod fault;
mod faults;
mod folders;
mod images;
mod layer;
mod layers;
mod paths;
mod refusal;
mod report;
mod restored;
mod restoring;
mod rows;
mod sources;

pub use analysis::analyze;
pub use command_analyze::{analyze_command, write_analyzed_document};
pub use command_restore::restore_command;
pub use fault::RestoreFault;
pub use refusal::RestoreRefusal;
pub use report::{analyzed_text, restored_text};
pub use restored::{Restored, RestoredRow};
pub use restoring::restore;
