// Why a text is no pattern.
ghost use Rattle.std.specs.Prelude.{◌≡◌};
ghost use Rattle.app_slices.specs.declared.fault.PatternFault.TheVariants as faults;

use cnb_world::Memory;
use std::alloc::AllocError;

/// Why a text is no pattern: it isn't one item after another, or memory ran out.
#[derive(Clone, Copy, Debug, PartialEq, Eq)]
pub enum PatternFault {
    Bad,
    Memory,
}

impl From<Memory> for PatternFault {
    ghost from_gives = { λ _ fault. fault ≡ faults.Memory };

    fn from(_: Memory) -> Self {
        PatternFault::Memory
    }
}

impl From<AllocError> for PatternFault {
    ghost from_gives = { λ _ fault. fault ≡ faults.Memory };

    fn from(_: AllocError) -> Self {
        PatternFault::Memory
    }
}
