// The faults that those of the steps come to.
use crate::fault::RestoreFault;
use cnb_world::{Memory, Path};
use doc_files::{FileRefusal, ReadFault};

impl FileRefusal for RestoreFault {
    ghost use Rattle.cnb_restore.specs.Faults.{cause_of};

    ghost cause = { cause_of };

    fn file(path: Path) -> Self {
        RestoreFault::File(path)
    }

    fn memory() -> Self {
        RestoreFault::Memory
    }
}

impl From<Memory> for RestoreFault {
    ghost use Rattle.std.specs.Prelude.{◌≡◌};
    ghost use Rattle.cnb_restore.specs.declared.fault.RestoreFault.TheVariants as fault;

    ghost from_gives = { λ _ given. given ≡ fault.Memory };

    fn from(_: Memory) -> Self {
        RestoreFault::Memory
    }
}

impl From<ReadFault> for RestoreFault {
    ghost use Rattle.std.specs.Prelude.{◌≡◌};
    ghost use Rattle.cnb_restore.specs.Faults.{of_read_fault};

    ghost from_gives = { λ fault given. given ≡ of_read_fault fault };

    fn from(fault: ReadFault) -> Self {
        match fault {
            ReadFault::File(path) => RestoreFault::File(path),
            ReadFault::Document(path, fault) => RestoreFault::Document(path, fault),
            ReadFault::Limit(kind) => RestoreFault::Limit(kind),
            ReadFault::Memory => RestoreFault::Memory,
        }
    }
}
