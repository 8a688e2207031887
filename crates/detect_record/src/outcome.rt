// What the calls on records answer.
use cnb_world::Memory;
use run_docs::{GroupDoc, PlanDoc};

/// What a record proves: the chosen group and its plan, the group's place among the listed groups, and the number of
/// the first passing trial. Both count from 0.
#[derive(Drop)]
pub struct Checked {
    pub group: GroupDoc,
    pub plan: PlanDoc,
    pub place: u32,
    pub trial: u32,
}

/// Why a record proves nothing.
#[derive(Clone, Copy, Debug, PartialEq, Eq)]
pub enum CheckFault {
    /// The first line at fault, counted from 1. A line that ought to follow the last one counts too.
    Bad { line: u32 },
    Memory,
}

impl From<Memory> for CheckFault {
    ghost use Rattle.std.specs.Prelude.{◌≡◌};
    ghost use Rattle.detect_record.specs.declared.outcome.CheckFault.TheVariants.{Memory};

    ghost from_gives = { λ _ fault. fault ≡ Memory };

    fn from(_: Memory) -> Self {
        CheckFault::Memory
    }
}

/// Why no record is made.
#[derive(Clone, Copy, Debug, PartialEq, Eq)]
pub enum RecordFault {
    /// It has more than 16,777,216 bytes.
    Large,
    Memory,
}

impl From<Memory> for RecordFault {
    ghost use Rattle.std.specs.Prelude.{◌≡◌};
    ghost use Rattle.detect_record.specs.declared.outcome.RecordFault.TheVariants.{Memory};

    ghost from_gives = { λ _ fault. fault ≡ Memory };

    fn from(_: Memory) -> Self {
        RecordFault::Memory
    }
}
