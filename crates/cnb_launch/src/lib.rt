//! What the commands `unpack` and `launch` do: an image is laid out as files under a root, and the process that such
//! files, the words of a command and the programs in `exec.d` say is run.
#![tactic(auto)]

mod choosing;
mod commands;
mod documents;
mod exec;
mod fault;
mod folders;
mod output;
mod places;
mod planning;
mod sets;
mod unpacking;

pub use cnb_words::Call;
pub use commands::{launch_command, unpack_command};
pub use fault::LaunchFault;
pub use planning::{LaunchPlan, launch, plan_launch};
pub use unpacking::unpack;
