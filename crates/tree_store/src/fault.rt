// Why a tree was not read or written.
ghost use Rattle.std.specs.Prelude.{◌≡◌, ℕ, List as Seq, Option, IfErr, OnOk, OnErr, IsTrue, is_ok, is_err};
ghost use Rattle.cnb_world.specs.Calls.{CountsFailed, LastFailed};
ghost use Rattle.steps.specs.Causes.{CountsFiles, IsReadCause};
ghost use Rattle.tree_store.specs.Answers.{Blames, BlamesAt, is_free, is_odd_file, cause_of};

use cnb_world::{FileFault, LimitKind, Memory, Path};
use std::alloc::{AllocError, Global};
use tree_canon::{Digest, Reason};

/// Why a tree was not read or written.
#[derive(Drop)]
pub enum StoreFault {
    OddFile(Path),
    Limit(LimitKind),
    File(Path),
    NoTree(Digest),
    Damaged {
        asked: Digest,
        found: Digest,
        bad: Option<Reason>,
    },
    Clash {
        digest: Digest,
    },
    Memory,
}

impl From<Memory> for StoreFault {
    ghost use Rattle.std.specs.Prelude.{◌≡◌};
    ghost use Rattle.tree_store.specs.declared.fault.StoreFault.TheVariants.{Memory};

    ghost from_gives = { λ _ fault. fault ≡ Memory };

    fn from(_: Memory) -> Self {
        StoreFault::Memory
    }
}

impl From<AllocError> for StoreFault {
    ghost use Rattle.std.specs.Prelude.{◌≡◌};
    ghost use Rattle.tree_store.specs.declared.fault.StoreFault.TheVariants.{Memory};

    ghost from_gives = { λ _ fault. fault ≡ Memory };

    fn from(_: AllocError) -> Self {
        StoreFault::Memory
    }
}

/// The refusal where a call on a path gave no answer.
pub(crate) fn blamed(alloc: Global, path: &Path, fault: FileFault) -> StoreFault
    ensures refusal { Blames path.now fault result }
    ensures blames { BlamesAt path.now result }
{
    match fault {
        FileFault::Failed => match path.copy(alloc) {
            Ok(path) => StoreFault::File(path),
            Err(Memory) => StoreFault::Memory,
        },
        FileFault::Memory => StoreFault::Memory,
    }
}

/// The refusal of an odd path.
pub(crate) fn odd(alloc: Global, path: &Path) -> StoreFault
    ensures { is_odd_file path.now result }
{
    match path.copy(alloc) {
        Ok(path) => StoreFault::OddFile(path),
        Err(Memory) => StoreFault::Memory,
    }
}

/// The answer of a call on a path, whose fault blames the path.
#[tactic(auto, using(crate::proofs::Blames::blamed_last))]
pub(crate) fn or_blame(
    alloc: Global,
    path: &Path,
    answer: Result<(), FileFault>,
) -> Result<(), StoreFault>
    ensures ok { OnOk result (IsTrue (is_ok answer)) }
    ensures err { OnErr result (IsTrue (is_err answer)) }
    ensures free { IfErr result (λ fault. IsTrue (is_free fault)) }
    ensures blames { IfErr result (BlamesAt path.now) }
    ensures last { (before now : Option (Seq ℕ)) → LastFailed path.now answer before now
        → IfErr result (λ fault. IsReadCause now (cause_of fault)) }
    ensures counts { (before now : ℕ) → CountsFailed answer before now → CountsFiles cause_of result before now }
{
    match answer {
        Ok(()) => Ok(()),
        Err(fault) => Err(blamed(alloc, path, fault)),
    }
}
