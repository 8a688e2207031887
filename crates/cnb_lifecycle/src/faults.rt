// The refusals that the faults of the steps come to.
use crate::refusal::Refusal;
use cnb_detect::DetectRefusal;
use cnb_words::WordsFault;
use cnb_world::Memory;
use std::alloc::AllocError;

impl From<Memory> for Refusal {
    ghost use Rattle.std.specs.Prelude.{◌≡◌};
    ghost use Rattle.cnb_lifecycle.specs.declared.refusal.Refusal.TheVariants as refusal;

    ghost from_gives = { λ _ given. given ≡ refusal.Memory };

    fn from(_: Memory) -> Self {
        Refusal::Memory
    }
}

impl From<AllocError> for Refusal {
    ghost use Rattle.std.specs.Prelude.{◌≡◌};
    ghost use Rattle.cnb_lifecycle.specs.declared.refusal.Refusal.TheVariants as refusal;

    ghost from_gives = { λ _ given. given ≡ refusal.Memory };

    fn from(_: AllocError) -> Self {
        Refusal::Memory
    }
}

impl From<WordsFault> for Refusal {
    ghost use Rattle.std.specs.Prelude.{◌≡◌};
    ghost use Rattle.cnb_lifecycle.specs.Faults.{of_words_fault};

    ghost from_gives = { λ fault given. given ≡ of_words_fault fault };

    fn from(fault: WordsFault) -> Self {
        match fault {
            WordsFault::Usage => Refusal::Usage,
            WordsFault::Memory => Refusal::Memory,
        }
    }
}

impl From<DetectRefusal> for Refusal {
    ghost use Rattle.std.specs.Prelude.{◌≡◌};
    ghost use Rattle.cnb_lifecycle.specs.Faults.{of_detect};

    ghost from_gives = { λ refusal given. given ≡ of_detect refusal };

    fn from(refusal: DetectRefusal) -> Self {
        match refusal {
            DetectRefusal::File(path) => Refusal::File(path),
            DetectRefusal::Memory => Refusal::Memory,
            DetectRefusal::Document(path, fault) => Refusal::Document(path, fault),
            DetectRefusal::Child => Refusal::Child,
            DetectRefusal::Limit(kind) => Refusal::Limit(kind),
            DetectRefusal::BuildpackApi(api) => Refusal::BuildpackApi(api),
            DetectRefusal::Order { id, ambiguous } => Refusal::Order { id, ambiguous },
            DetectRefusal::NoGroup { erred } => Refusal::NoGroup { erred },
        }
    }
}
