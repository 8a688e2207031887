// The refusals that the faults of the steps come to.
use crate::fault::{PruneFault, VerifyFault};
use cnb_world::Memory;
use doc_files::ReadFault;
use image_files::ImageFault;
use tree_store::StoreFault;

impl From<Memory> for PruneFault {
    ghost use Rattle.std.specs.Prelude.{◌≡◌};
    ghost use Rattle.store_prune.specs.declared.fault.PruneFault.TheVariants as fault;

    ghost from_gives = { λ _ given. given ≡ fault.Memory };

    fn from(_: Memory) -> Self {
        PruneFault::Memory
    }
}

impl From<ReadFault> for PruneFault {
    ghost use Rattle.std.specs.Prelude.{◌≡◌};
    ghost use Rattle.store_prune.specs.Faults.{of_read_fault};

    ghost from_gives = { λ fault given. given ≡ of_read_fault fault };

    fn from(fault: ReadFault) -> Self {
        match fault {
            ReadFault::File(path) => PruneFault::File(path),
            ReadFault::Document(path, fault) => PruneFault::Document(path, fault),
            ReadFault::Limit(kind) => PruneFault::Limit(kind),
            ReadFault::Memory => PruneFault::Memory,
        }
    }
}

impl From<Memory> for VerifyFault {
    ghost use Rattle.std.specs.Prelude.{◌≡◌};
    ghost use Rattle.store_prune.specs.declared.fault.VerifyFault.TheVariants.{Store};
    ghost use Rattle.tree_store.specs.declared.fault.StoreFault.TheVariants as store;

    ghost from_gives = { λ _ given. given ≡ Store store.Memory };

    fn from(_: Memory) -> Self {
        VerifyFault::Store(StoreFault::Memory)
    }
}

impl From<StoreFault> for VerifyFault {
    ghost use Rattle.std.specs.Prelude.{◌≡◌};
    ghost use Rattle.store_prune.specs.declared.fault.VerifyFault.TheVariants.{Store};

    ghost from_gives = { λ fault given. given ≡ Store fault };

    fn from(fault: StoreFault) -> Self {
        VerifyFault::Store(fault)
    }
}

impl From<ImageFault> for VerifyFault {
    ghost use Rattle.std.specs.Prelude.{◌≡◌};
    ghost use Rattle.store_prune.specs.Faults.{of_image_fault};

    ghost from_gives = { λ fault given. given ≡ of_image_fault fault };

    fn from(fault: ImageFault) -> Self {
        match fault {
            ImageFault::NoImage(name) => VerifyFault::NoImage(name),
            ImageFault::Document(path, fault) => VerifyFault::Document(path, fault),
            ImageFault::Limit(kind) => VerifyFault::Limit(kind),
            ImageFault::File(path) => VerifyFault::Store(StoreFault::File(path)),
            ImageFault::Memory => VerifyFault::Store(StoreFault::Memory),
        }
    }
}
