// What a command answers.
use cnb_world::Text;

/// What a command that did its work answers.
#[derive(Drop)]
pub enum Answer {
    /// The text to be printed.
    Printed(Text),
    /// The launched child ended, with this code where it has one.
    Launched(Option<i32>),
}
