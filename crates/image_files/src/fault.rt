// Why the document of an image was not read or written.
use cnb_toml::{DocFault, ImageName};
use cnb_world::{LimitKind, Memory, Path};
use doc_files::{FileRefusal, ReadFault};

/// An image isn't there, a document is refused or too long, or the outside gave no answer. `File` has the path whose
/// call failed.
#[derive(Drop)]
pub enum ImageFault {
    NoImage(ImageName),
    Document(Path, DocFault),
    Limit(LimitKind),
    File(Path),
    Memory,
}

impl FileRefusal for ImageFault {
    ghost use Rattle.image_files.specs.Faults.{cause_of};

    ghost cause = { cause_of };

    fn file(path: Path) -> Self {
        ImageFault::File(path)
    }

    fn memory() -> Self {
        ImageFault::Memory
    }
}

impl From<Memory> for ImageFault {
    ghost use Rattle.std.specs.Prelude.{◌≡◌};
    ghost use Rattle.image_files.specs.declared.fault.ImageFault.TheVariants as fault;

    ghost from_gives = { λ _ given. given ≡ fault.Memory };

    fn from(_: Memory) -> Self {
        ImageFault::Memory
    }
}

impl From<ReadFault> for ImageFault {
    ghost use Rattle.std.specs.Prelude.{◌≡◌};
    ghost use Rattle.image_files.specs.Faults.{of_read_fault};

    ghost from_gives = { λ fault given. given ≡ of_read_fault fault };

    fn from(fault: ReadFault) -> Self {
        match fault {
            ReadFault::File(path) => ImageFault::File(path),
            ReadFault::Document(path, fault) => ImageFault::Document(path, fault),
            ReadFault::Limit(kind) => ImageFault::Limit(kind),
            ReadFault::Memory => ImageFault::Memory,
        }
    }
}
