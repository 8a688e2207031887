// Why exports are refused.
use cnb_toml::{BpId, DocFault, ImageName, LayerName};
use cnb_world::{Memory, Path, Text};
use doc_files::ReadFault;
use image_files::ImageFault;
use std::alloc::AllocError;
use tree_store::StoreFault;

/// Why no image is exported. A failed call, a limit and want of memory are the store's refusals.
#[derive(Drop)]
pub enum ExportFault {
    /// A layer that is to be cached has no contents.
    NoContents(BpId, LayerName),
    /// A layer of the image has no contents, and the previous image hasn't got it.
    NoPrevious(BpId, LayerName),
    /// The `launch.toml` of this buildpack marks two defaults.
    TwoDefaults(BpId),
    /// This text among the `slices` of this buildpack's `launch.toml` is no pattern.
    BadPattern(BpId, Text),
    /// There is no image of this name.
    NoImage(ImageName),
    /// The document at this path is refused.
    Document(Path, DocFault),
    /// A tree is refused.
    Store(StoreFault),
}

impl From<Memory> for ExportFault {
    ghost use Rattle.std.specs.Prelude.{◌≡◌};
    ghost use Rattle.tree_store.specs.declared.fault.StoreFault.TheVariants as stored;
    ghost use Rattle.cnb_layers.specs.declared.fault.ExportFault.TheVariants as fault;

    ghost from_gives = { λ _ given. given ≡ fault.Store stored.Memory };

    fn from(_: Memory) -> Self {
        ExportFault::Store(StoreFault::Memory)
    }
}

impl From<AllocError> for ExportFault {
    ghost use Rattle.std.specs.Prelude.{◌≡◌};
    ghost use Rattle.tree_store.specs.declared.fault.StoreFault.TheVariants as stored;
    ghost use Rattle.cnb_layers.specs.declared.fault.ExportFault.TheVariants as fault;

    ghost from_gives = { λ _ given. given ≡ fault.Store stored.Memory };

    fn from(_: AllocError) -> Self {
        ExportFault::Store(StoreFault::Memory)
    }
}

impl From<StoreFault> for ExportFault {
    ghost use Rattle.std.specs.Prelude.{◌≡◌};
    ghost use Rattle.cnb_layers.specs.declared.fault.ExportFault.TheVariants as fault;

    ghost from_gives = { λ refusal given. given ≡ fault.Store refusal };

    fn from(fault: StoreFault) -> Self {
        ExportFault::Store(fault)
    }
}

impl From<ReadFault> for ExportFault {
    ghost use Rattle.std.specs.Prelude.{◌≡◌};
    ghost use Rattle.cnb_layers.specs.Refusals.{of_read_fault};

    ghost from_gives = { λ fault given. given ≡ of_read_fault fault };

    fn from(fault: ReadFault) -> Self {
        match fault {
            ReadFault::File(path) => ExportFault::Store(StoreFault::File(path)),
            ReadFault::Document(path, fault) => ExportFault::Document(path, fault),
            ReadFault::Limit(kind) => ExportFault::Store(StoreFault::Limit(kind)),
            ReadFault::Memory => ExportFault::Store(StoreFault::Memory),
        }
    }
}

impl From<ImageFault> for ExportFault {
    ghost use Rattle.std.specs.Prelude.{◌≡◌};
    ghost use Rattle.cnb_layers.specs.Refusals.{of_image_fault};

    ghost from_gives = { λ fault given. given ≡ of_image_fault fault };

    fn from(fault: ImageFault) -> Self {
        match fault {
            ImageFault::NoImage(name) => ExportFault::NoImage(name),
            ImageFault::Document(path, fault) => ExportFault::Document(path, fault),
            ImageFault::Limit(kind) => ExportFault::Store(StoreFault::Limit(kind)),
            ImageFault::File(path) => ExportFault::Store(StoreFault::File(path)),
            ImageFault::Memory => ExportFault::Store(StoreFault::Memory),
        }
    }
}
