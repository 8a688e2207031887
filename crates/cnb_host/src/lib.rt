//! The real outside: files, children, caches in folders and standard output over std, with the words and the
//! environment of the process.
//!
//! A contract can't say what a file holds or what a child does. These objects keep what can be said: each failure is
//! counted, an answer is within its bounds, and a child is handed exactly its job. What the system does is trusted.
#![tactic(auto)]

mod beside;
mod cause;
mod command;
mod documents;
mod failure;
mod fault;
mod files;
mod kept;
mod locks;
mod looked;
mod lookup;
mod names;
mod opened;
mod plans;
mod prober;
mod process;
mod program;
mod remove;
mod rows;
mod shelf;
mod shell;
mod side;
mod sink;
mod spawner;
mod swept;
mod world;

pub use command::{child_command, child_command_at, detect_command};
pub use locks::LockFolder;
pub use process::{StartFault, environment, words};
pub use shelf::FolderShelf;
pub use sink::StdoutSink;
pub use spawner::HostSpawner;
pub use swept::sweep_cache;
pub use world::HostWorld;
