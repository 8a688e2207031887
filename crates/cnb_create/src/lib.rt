//! What the command `create` does: it analyzes the images, chooses a group, restores its layers, builds it and exports
//! the image, each by the public call of the phase's own crate. What was analyzed and the choice are handed on as
//! values.
#![tactic(auto)]

mod building;
mod choosing;
mod creating;
mod defined;
mod exporting;
mod images;
mod phases;
mod refusal;
mod report;
mod restoring;
mod target;

pub use creating::create_command;
pub use defined::created_image_is_defined;
pub use refusal::CreateRefusal;
