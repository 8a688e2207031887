// Answers by number.
use cnb_world::Probed;

/// A job's number, and how its child ended.
#[derive(Drop)]
pub struct Answer {
    pub number: u32,
    pub probed: Probed,
}
