// Why a line of a script gives no answer.
use cnb_world::{ChildFault, DetectFault, FileFault, Memory, PathFault, ShelfFault, SinkFault};
use row_files::RowFault;
use std::alloc::{AllocError, AllocFailed};
use std::io;

/// Why a line gives no answer: its call failed, or the row can't be gone through.
#[derive(Debug, Drop)]
pub enum LineFault {
    Failed,
    Row(RowFault),
}

/// Memory ran out.
pub const NO_MEMORY: LineFault = LineFault::Row(RowFault::Memory(AllocError));

impl From<RowFault> for LineFault {
    fn from(fault: RowFault) -> Self {
        LineFault::Row(fault)
    }
}

impl From<io::Error> for LineFault {
    fn from(fault: io::Error) -> Self {
        LineFault::Row(RowFault::Files(fault))
    }
}

impl From<AllocError> for LineFault {
    fn from(_: AllocError) -> Self {
        NO_MEMORY
    }
}

impl<T: Drop> From<AllocFailed<T>> for LineFault {
    fn from(_: AllocFailed<T>) -> Self {
        NO_MEMORY
    }
}

impl From<Memory> for LineFault {
    fn from(_: Memory) -> Self {
        NO_MEMORY
    }
}

impl From<FileFault> for LineFault {
    fn from(fault: FileFault) -> Self {
        match fault {
            FileFault::Failed => LineFault::Failed,
            FileFault::Memory => NO_MEMORY,
        }
    }
}

impl From<ChildFault> for LineFault {
    fn from(fault: ChildFault) -> Self {
        match fault {
            ChildFault::Failed => LineFault::Failed,
            ChildFault::Memory => NO_MEMORY,
        }
    }
}

impl From<DetectFault> for LineFault {
    fn from(fault: DetectFault) -> Self {
        match fault {
            DetectFault::Failed => LineFault::Failed,
            DetectFault::Memory => NO_MEMORY,
        }
    }
}

impl From<ShelfFault> for LineFault {
    fn from(fault: ShelfFault) -> Self {
        match fault {
            ShelfFault::Failed => LineFault::Failed,
            ShelfFault::Memory => NO_MEMORY,
        }
    }
}

impl From<PathFault> for LineFault {
    fn from(fault: PathFault) -> Self {
        match fault {
            PathFault::NotPath => LineFault::Failed,
            PathFault::Memory => NO_MEMORY,
        }
    }
}

impl From<SinkFault> for LineFault {
    fn from(_: SinkFault) -> Self {
        LineFault::Failed
    }
}
