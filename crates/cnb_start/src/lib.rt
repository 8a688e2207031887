//! What the process is started with: its words and environment, the system that it works on, and the folders of the caches.
//!
//! `start` reads the words, locks and watches the folders that they name, says on standard error what is wrong with those of a
//! build, and makes the files, the children and the output that `lifecycle` works on. `end` says why a command was refused.
#![tactic(auto)]

mod cache;
mod descriptors;
mod ending;
mod folders;
mod starting;
mod warnings;

pub use cache::FolderCache;
pub use descriptors::{Placeholders, fill_closed};
pub use ending::end;
pub use starting::{MainSink, MainSpawner, MainStarted, MainWorld, Started, Unstarted, start};
