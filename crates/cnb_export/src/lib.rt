//! The export of an image: what the buildpacks of a group left, the application and the launcher go into a store of
//! trees and into caches, and the image that they make is answered.
#![tactic(auto)]

mod ascending;
mod command;
mod exported;
mod exporting;
mod given;
mod image;
mod images;
mod processes;
mod refusal;
mod report;
mod rows;
mod trees;

pub use command::{export_command, save_image};
pub use exported::{Exported, ExportedRow};
pub use exporting::export;
pub use refusal::ExportRefusal;
pub use report::exported_text;
