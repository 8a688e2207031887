// Why builds are refused.
use cnb_toml::{BpId, DocFault};
use cnb_world::{ChildFault, LimitKind, Memory, Path, Text};
use doc_files::ReadFault;
use std::alloc::AllocError;

/// Why a group isn't built to its end (platform.md, "builder", and this implementation's own).
#[derive(Drop)]
pub enum BuildFault {
    /// The child of this buildpack ended with another code than 0, or without one.
    BuildFailed { id: BpId, code: Option<i32> },
    /// This buildpack left a name unmet that wasn't in its plan.
    UnknownUnmet { id: BpId, name: Text },
    /// A buildpack of another Buildpack API is to be built.
    Api(Text),
    /// The document at this path is refused.
    Document(Path, DocFault),
    /// Something is more than its limit.
    Limit(LimitKind),
    /// A child could not be run.
    Child,
    /// A call on this path failed.
    File(Path),
    /// Memory ran out.
    Memory,
}

impl From<Memory> for BuildFault {
    ghost use Rattle.std.specs.Prelude.{◌≡◌};
    ghost use Rattle.cnb_build.specs.declared.fault.BuildFault.TheVariants as build;

    ghost from_gives = { λ _ given. given ≡ build.Memory };

    fn from(_: Memory) -> Self {
        BuildFault::Memory
    }
}

impl From<AllocError> for BuildFault {
    ghost use Rattle.std.specs.Prelude.{◌≡◌};
    ghost use Rattle.cnb_build.specs.declared.fault.BuildFault.TheVariants as build;

    ghost from_gives = { λ _ given. given ≡ build.Memory };

    fn from(_: AllocError) -> Self {
        BuildFault::Memory
    }
}

impl From<ReadFault> for BuildFault {
    ghost use Rattle.std.specs.Prelude.{◌≡◌};
    ghost use Rattle.cnb_build.specs.Refusals.{of_read_fault};

    ghost from_gives = { λ fault given. given ≡ of_read_fault fault };

    fn from(fault: ReadFault) -> Self {
        match fault {
            ReadFault::File(path) => BuildFault::File(path),
            ReadFault::Document(path, fault) => BuildFault::Document(path, fault),
            ReadFault::Limit(kind) => BuildFault::Limit(kind),
            ReadFault::Memory => BuildFault::Memory,
        }
    }
}

impl From<ChildFault> for BuildFault {
    ghost use Rattle.std.specs.Prelude.{◌≡◌};
    ghost use Rattle.cnb_build.specs.Refusals.{of_child_fault};

    ghost from_gives = { λ fault given. given ≡ of_child_fault fault };

    fn from(fault: ChildFault) -> Self {
        match fault {
            ChildFault::Failed => BuildFault::Child,
            ChildFault::Memory => BuildFault::Memory,
        }
    }
}
