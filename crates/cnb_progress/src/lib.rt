//! What the program is doing, said on standard error: a world, a spawner and a sink that pass each call on to the one
//! within and say what they see, and explanations of refusals. Nothing that a command does or prints depends on them.
#![tactic(auto)]

mod commands;
mod documents;
mod expected;
mod explain;
mod forms;
mod given;
mod level;
mod nearest;
mod options;
mod phases;
mod refusals;
mod sink;
mod spawner;
mod usage;
mod words;
mod world;

pub use explain::explain_refusal;
pub use level::Level;
pub use phases::Phases;
pub use sink::ProgressSink;
pub use spawner::ProgressSpawner;
pub use world::ProgressWorld;
