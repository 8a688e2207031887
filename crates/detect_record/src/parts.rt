// The lines of a record, read.
use cnb_toml::{Key, Target};
use cnb_world::{List, Probed};

/// Whether a step's name is one that its buildpack requires (`r`) or one that it provides (`v`).
#[derive(Clone, Copy, Debug, PartialEq, Eq)]
pub enum Side {
    Required,
    Provided,
}

/// A place of a trial is dropped for a name of its buildpack that isn't met, by the name's number on that side. Places
/// and names count from 0.
#[derive(Clone, Copy, Debug, PartialEq, Eq)]
pub struct Step {
    pub place: u32,
    pub side: Side,
    pub name: u32,
}

/// A line of a group or of one of its trials.
#[derive(Drop)]
pub enum GroupLine {
    /// The group fails by its member of this number, counted from 0.
    Fails(u32),
    /// No member of the group passes.
    Idle,
    /// Each of so many trials fails.
    Trials(u32),
    /// One of so many trials is the first that passes.
    Chosen(u32),
    /// The trial fails: the last step takes a required place, or the last place.
    Drop(List<Step>),
    /// The trial keeps the places that are left.
    Keep(List<Step>),
}

/// A line.
#[derive(Drop)]
pub enum Line {
    /// The first line: the format and its version.
    Head,
    /// What was built for, where it was known.
    Target(Option<Target>),
    /// How a buildpack's child ended, and the bytes of its plan.
    Answer(Key, Probed),
    Group(GroupLine),
}
