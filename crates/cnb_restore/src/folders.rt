// What is done to folders.
ghost use Rattle.steps.specs.Outside.{seen};
ghost use Rattle.steps.specs.Steps.{makes_folder, removes};
ghost use Rattle.cnb_restore.specs.Faults.{Blames, cause_of};

use crate::fault::RestoreFault;
use cnb_world::{FileFault, Memory, Path, World};
use std::alloc::Global;

// The refusal where a call on a path gave no answer.
fn blamed(alloc: Global, path: &Path, fault: FileFault) -> RestoreFault
    ensures { Blames path.now fault result }
{
    match fault {
        FileFault::Failed => match path.copy(alloc) {
            Ok(path) => RestoreFault::File(path),
            Err(Memory) => RestoreFault::Memory,
        },
        FileFault::Memory => RestoreFault::Memory,
    }
}

/// Removes what stands at a path, and below it.
#[tactic(auto, unfolding(steps::specs::Steps::removes), using(steps::proofs::StepLemmas::allowed_by, crate::proofs::BlameLemmas::blamed_counts))]
pub(crate) fn remove<W: World>(
    alloc: Global,
    world: &mut W,
    path: &Path,
) -> Result<(), RestoreFault>
    ensures step { removes cause_of path.now (seen W.World world.old) result (seen W.World world.new) }
{
    match world.remove(path) {
        Ok(()) => Ok(()),
        Err(fault) => Err(blamed(alloc, path, fault)),
    }
}

/// Makes a folder, and those above it that are missing.
#[tactic(auto, unfolding(steps::specs::Steps::makes_folder), using(steps::proofs::StepLemmas::allowed_by, crate::proofs::BlameLemmas::blamed_counts))]
pub(crate) fn make_folder<W: World>(
    alloc: Global,
    world: &mut W,
    path: &Path,
) -> Result<(), RestoreFault>
    ensures step { makes_folder cause_of path.now (seen W.World world.old) result (seen W.World world.new) }
{
    match world.make_folder(path) {
        Ok(()) => Ok(()),
        Err(fault) => Err(blamed(alloc, path, fault)),
    }
}
