//! What the commands `rebase`, `base` and `show` do: they put an image on another run image, make a run image of
//! folders, and tell what an image is made of.
#![tactic(auto)]

mod faults;
mod image;
mod making;
mod rebasing;
mod refusal;
mod report;
mod showing;

pub use making::{base, base_command};
pub use rebasing::{rebase, rebase_command};
pub use refusal::{BaseFault, RebaseFault};
pub use showing::{show, show_command};
