// The refusals that the faults of the steps come to.
use crate::refusal::{BaseFault, RebaseFault};
use cnb_world::Memory;
use image_files::ImageFault;
use tree_store::StoreFault;

impl From<Memory> for RebaseFault {
    ghost use Rattle.std.specs.Prelude.{◌≡◌};
    ghost use Rattle.cnb_rebase.specs.declared.refusal.RebaseFault.TheVariants as fault;

    ghost from_gives = { λ _ given. given ≡ fault.Memory };

    fn from(_: Memory) -> Self {
        RebaseFault::Memory
    }
}

impl From<ImageFault> for RebaseFault {
    ghost use Rattle.std.specs.Prelude.{◌≡◌};
    ghost use Rattle.cnb_rebase.specs.Refusals.{of_image_fault};

    ghost from_gives = { λ fault given. given ≡ of_image_fault fault };

    fn from(fault: ImageFault) -> Self {
        match fault {
            ImageFault::NoImage(name) => RebaseFault::NoImage(name),
            ImageFault::Document(path, fault) => RebaseFault::Document(path, fault),
            ImageFault::Limit(kind) => RebaseFault::Limit(kind),
            ImageFault::File(path) => RebaseFault::File(path),
            ImageFault::Memory => RebaseFault::Memory,
        }
    }
}

impl From<Memory> for BaseFault {
    ghost use Rattle.std.specs.Prelude.{◌≡◌};
    ghost use Rattle.cnb_rebase.specs.declared.refusal.BaseFault.TheVariants.{Image};
    ghost use Rattle.image_files.specs.declared.fault.ImageFault.TheVariants as image;

    ghost from_gives = { λ _ given. given ≡ Image image.Memory };

    fn from(_: Memory) -> Self {
        BaseFault::Image(ImageFault::Memory)
    }
}

impl From<StoreFault> for BaseFault {
    ghost use Rattle.std.specs.Prelude.{◌≡◌};
    ghost use Rattle.cnb_rebase.specs.declared.refusal.BaseFault.TheVariants.{Store};

    ghost from_gives = { λ fault given. given ≡ Store fault };

    fn from(fault: StoreFault) -> Self {
        BaseFault::Store(fault)
    }
}

impl From<ImageFault> for BaseFault {
    ghost use Rattle.std.specs.Prelude.{◌≡◌};
    ghost use Rattle.cnb_rebase.specs.declared.refusal.BaseFault.TheVariants.{Image};

    ghost from_gives = { λ fault given. given ≡ Image fault };

    fn from(fault: ImageFault) -> Self {
        BaseFault::Image(fault)
    }
}
