//! What the words of a command line ask for.
#![tactic(auto)]

mod analyze;
mod base;
mod build;
mod check;
mod choice;
mod create;
mod detect;
mod drill;
mod export;
mod fault;
mod launch;
mod option_values;
mod options;
mod program;
mod prune;
mod reading;
mod rebase;
mod record_path;
mod restore;
mod show;
mod unpack;
mod values;
mod verify;
mod words;

pub use analyze::AnalyzeWords;
pub use base::BaseWords;
pub use build::BuildWords;
pub use check::CheckWords;
pub use choice::ChoiceWords;
pub use create::CreateWords;
pub use detect::DetectWords;
pub use drill::DrillWords;
pub use export::ExportWords;
pub use fault::WordsFault;
pub use launch::{Call, LaunchWords};
pub use prune::PruneWords;
pub use rebase::RebaseWords;
pub use restore::RestoreWords;
pub use show::ShowWords;
pub use unpack::UnpackWords;
pub use verify::VerifyWords;
pub use words::{Asked, read_words};
