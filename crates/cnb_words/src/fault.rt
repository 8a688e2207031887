// Why words ask for nothing.

use clap::error::ErrorKind;
use cnb_toml::NameFault;
use cnb_world::{Memory, PathFault};
use std::alloc::AllocError;

/// Why words ask for nothing: they are no command with its options, or memory ran out.
#[derive(Drop)]
pub enum WordsFault {
    Usage,
    Memory,
}

impl From<Memory> for WordsFault {
    ghost use Rattle.std.specs.Prelude.{◌≡◌};
    ghost use Rattle.cnb_words.specs.declared.fault.WordsFault.TheVariants.{Memory};

    ghost from_gives = { λ _ fault. fault ≡ Memory };

    fn from(_: Memory) -> Self {
        WordsFault::Memory
    }
}

impl From<PathFault> for WordsFault {
    ghost use Rattle.std.specs.Prelude.{◌≡◌};
    ghost use Rattle.cnb_words.specs.Faults.{fault_of_path};

    ghost from_gives = { λ fault refusal. refusal ≡ fault_of_path fault };

    fn from(fault: PathFault) -> Self {
        match fault {
            PathFault::NotPath => WordsFault::Usage,
            PathFault::Memory => WordsFault::Memory,
        }
    }
}

impl From<NameFault> for WordsFault {
    ghost use Rattle.std.specs.Prelude.{◌≡◌};
    ghost use Rattle.cnb_words.specs.Faults.{fault_of_name};

    ghost from_gives = { λ fault refusal. refusal ≡ fault_of_name fault };

    fn from(fault: NameFault) -> Self {
        match fault {
            NameFault::Bad => WordsFault::Usage,
            NameFault::Memory => WordsFault::Memory,
        }
    }
}

impl From<AllocError> for WordsFault {
    ghost use Rattle.std.specs.Prelude.{◌≡◌};
    ghost use Rattle.cnb_words.specs.declared.fault.WordsFault.TheVariants.{Memory};

    ghost from_gives = { λ _ fault. fault ≡ Memory };

    fn from(_: AllocError) -> Self {
        WordsFault::Memory
    }
}

impl From<clap::Error> for WordsFault {
    ghost use Rattle.std.specs.Prelude.{◌≡◌};
    ghost use Rattle.clap.specs.Values.{kind_of};
    ghost use Rattle.cnb_words.specs.Reading.{fault_of_reading};

    ghost from_gives = { λ error fault. fault ≡ fault_of_reading (kind_of error) };

    fn from(error: clap::Error) -> Self {
        match error.kind() {
            ErrorKind::OutOfMemory => WordsFault::Memory,
            _ => WordsFault::Usage,
        }
    }
}
