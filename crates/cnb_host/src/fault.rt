// Why the system gave no answer.

use crate::cause::Cause;
use cnb_world::{Kind, Memory};
use std::alloc::{AllocError, AllocFailed};
use std::io;
use std::io::ErrorKind;

/// Why the system gave no answer: a failure to be counted, with its cause, or want of memory.
#[derive(Clone, Copy)]
pub enum HostFault {
    Failed(Cause),
    Memory,
}

impl HostFault {
    /// The failure of a call that wants something else at its path than this.
    pub fn unwanted(kind: &Kind) -> HostFault {
        HostFault::Failed(match kind {
            Kind::Absent => Cause::Absent,
            Kind::File { .. } => Cause::File,
            Kind::Folder => Cause::Folder,
            Kind::Link => Cause::Link,
            Kind::Odd => Cause::Odd,
        })
    }
}

impl From<Cause> for HostFault {
    fn from(cause: Cause) -> Self {
        HostFault::Failed(cause)
    }
}

impl From<io::Error> for HostFault {
    fn from(error: io::Error) -> Self {
        match error.kind() {
            ErrorKind::OutOfMemory => HostFault::Memory,
            _ => HostFault::Failed(Cause::of(&error)),
        }
    }
}

impl From<Memory> for HostFault {
    fn from(_: Memory) -> Self {
        HostFault::Memory
    }
}

impl From<AllocError> for HostFault {
    fn from(_: AllocError) -> Self {
        HostFault::Memory
    }
}

impl<T: Drop> From<AllocFailed<T>> for HostFault {
    fn from(_: AllocFailed<T>) -> Self {
        HostFault::Memory
    }
}
