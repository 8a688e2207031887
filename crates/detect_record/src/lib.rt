//! A record of a detection: lines that show why each earlier group and trial was passed over and what the first passing
//! trial keeps. They are followed without a search.
#![tactic(auto)]

mod answers;
mod asked;
mod checking;
mod dropping;
mod fitting;
mod following;
mod forms;
mod groups;
mod laws;
mod line_fault;
mod line_reading;
mod line_text;
mod lines;
mod making;
mod making_groups;
mod outcome;
mod parts;
mod record_making;
mod record_text;
mod sizes;
mod trial_line;
mod trials;

pub use checking::check_record;
pub use laws::lines_read_back;
pub use outcome::{CheckFault, Checked, RecordFault};
pub use parts::{GroupLine, Line, Side, Step};
pub use record_making::make_record;
