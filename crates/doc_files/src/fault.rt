// Why files were not read.
ghost use Rattle.std.specs.Prelude.{◌≡◌, ℕ, Err, IfErr};
ghost use Rattle.steps.specs.Causes.{CountsFiles, IsAnswer};
ghost use Rattle.doc_files.specs.Faults.{read_cause};
ghost use Rattle.doc_files.specs.Reading.{Blames, BlamesOnly, read_at};

use cnb_toml::DocFault;
use cnb_world::{FileFault, LimitKind, Memory, Path};
use std::alloc::{AllocError, Global};

/// Why a document, or a folder of documents, was not read: a call on a path failed, a document is refused, or it is
/// too long. `File` has the path whose call failed.
#[derive(Drop)]
pub enum ReadFault {
    File(Path),
    Document(Path, DocFault),
    Limit(LimitKind),
    Memory,
}

impl From<Memory> for ReadFault {
    ghost use Rattle.std.specs.Prelude.{◌≡◌};
    ghost use Rattle.doc_files.specs.declared.fault.ReadFault.TheVariants.{Memory};

    ghost from_gives = { λ _ fault. fault ≡ Memory };

    fn from(_: Memory) -> Self {
        ReadFault::Memory
    }
}

impl From<AllocError> for ReadFault {
    ghost use Rattle.std.specs.Prelude.{◌≡◌};
    ghost use Rattle.doc_files.specs.declared.fault.ReadFault.TheVariants.{Memory};

    ghost from_gives = { λ _ fault. fault ≡ Memory };

    fn from(_: AllocError) -> Self {
        ReadFault::Memory
    }
}

/// The refusal where a call on a path gave no answer.
pub fn blamed(alloc: Global, path: &Path, fault: FileFault) -> ReadFault
    ensures { Blames path.now fault result }
{
    match fault {
        FileFault::Failed => match path.copy(alloc) {
            Ok(path) => ReadFault::File(path),
            Err(Memory) => ReadFault::Memory,
        },
        FileFault::Memory => ReadFault::Memory,
    }
}

/// What the reader of a document answered, for the document at a path.
pub fn read_at<T: Drop>(
    alloc: Global,
    path: &Path,
    answer: Result<T, DocFault>,
) -> Result<T, ReadFault>
    ensures reads { IsAnswer read_cause result (read_at path.now answer) }
    ensures blames { IfErr result (BlamesOnly path.now) }
    ensures files { (n : ℕ) → CountsFiles read_cause result n n }
{
    match answer {
        Ok(value) => Ok(value),
        Err(DocFault::Memory) => Err(ReadFault::Memory),
        Err(fault) => Err(ReadFault::Document(path.copy(alloc)?, fault)),
    }
}
