// Why an image is not laid out, or not launched.
use cnb_toml::{DocFault, ImageName};
use cnb_world::{ChildFault, Memory, Path, Text};
use doc_files::ReadFault;
use image_files::ImageFault;
use std::alloc::AllocError;
use tree_store::StoreFault;

/// Why an image is not laid out, or its process not run. A call on a file that failed is a fault of the store, also
/// where the file is none of the store's. A text is the type, or the word, of which there is no process.
#[derive(Drop)]
pub enum LaunchFault {
    /// The store has no image of this name.
    NoImage(ImageName),
    /// Something stands at the root.
    Exists(Path),
    /// The first word is no process type; a shell would run it.
    ShellProcess(Text),
    /// There is no process of this type, or, where the text is empty, no default.
    NoProcess(Text),
    /// A program in `exec.d` ended with another code than 0.
    ExecFailed { path: Path, code: Option<i32> },
    /// What a program in `exec.d` put out is no table of texts.
    BadExecOutput(Path),
    /// A child could not be run.
    Child,
    /// The document at this path is refused.
    Document(Path, DocFault),
    /// A file could not be read or written, or a tree of the image is none.
    Store(StoreFault),
    /// Memory ran out.
    Memory,
}

impl From<Memory> for LaunchFault {
    ghost use Rattle.std.specs.Prelude.{◌≡◌};
    ghost use Rattle.cnb_launch.specs.declared.fault.LaunchFault.TheVariants as fault;

    ghost from_gives = { λ _ given. given ≡ fault.Memory };

    fn from(_: Memory) -> Self {
        LaunchFault::Memory
    }
}

impl From<AllocError> for LaunchFault {
    ghost use Rattle.std.specs.Prelude.{◌≡◌};
    ghost use Rattle.cnb_launch.specs.declared.fault.LaunchFault.TheVariants as fault;

    ghost from_gives = { λ _ given. given ≡ fault.Memory };

    fn from(_: AllocError) -> Self {
        LaunchFault::Memory
    }
}

impl From<ReadFault> for LaunchFault {
    ghost use Rattle.std.specs.Prelude.{◌≡◌};
    ghost use Rattle.cnb_launch.specs.Faults.{of_read_fault};

    ghost from_gives = { λ fault given. given ≡ of_read_fault fault };

    fn from(fault: ReadFault) -> Self {
        match fault {
            ReadFault::File(path) => LaunchFault::Store(StoreFault::File(path)),
            ReadFault::Document(path, fault) => LaunchFault::Document(path, fault),
            ReadFault::Limit(kind) => LaunchFault::Store(StoreFault::Limit(kind)),
            ReadFault::Memory => LaunchFault::Memory,
        }
    }
}

impl From<StoreFault> for LaunchFault {
    ghost use Rattle.std.specs.Prelude.{◌≡◌};
    ghost use Rattle.cnb_launch.specs.Faults.{of_store_fault};

    ghost from_gives = { λ fault given. given ≡ of_store_fault fault };

    fn from(fault: StoreFault) -> Self {
        match fault {
            StoreFault::Memory => LaunchFault::Memory,
            fault => LaunchFault::Store(fault),
        }
    }
}

impl From<ImageFault> for LaunchFault {
    ghost use Rattle.std.specs.Prelude.{◌≡◌};
    ghost use Rattle.cnb_launch.specs.Faults.{of_image_fault};

    ghost from_gives = { λ fault given. given ≡ of_image_fault fault };

    fn from(fault: ImageFault) -> Self {
        match fault {
            ImageFault::NoImage(name) => LaunchFault::NoImage(name),
            ImageFault::Document(path, fault) => LaunchFault::Document(path, fault),
            ImageFault::Limit(kind) => LaunchFault::Store(StoreFault::Limit(kind)),
            ImageFault::File(path) => LaunchFault::Store(StoreFault::File(path)),
            ImageFault::Memory => LaunchFault::Memory,
        }
    }
}

impl From<ChildFault> for LaunchFault {
    ghost use Rattle.std.specs.Prelude.{◌≡◌};
    ghost use Rattle.cnb_launch.specs.Faults.{of_child_fault};

    ghost from_gives = { λ fault given. given ≡ of_child_fault fault };

    fn from(fault: ChildFault) -> Self {
        match fault {
            ChildFault::Failed => LaunchFault::Child,
            ChildFault::Memory => LaunchFault::Memory,
        }
    }
}
