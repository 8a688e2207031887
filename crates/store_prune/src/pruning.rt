// The command `prune`.
ghost use Rattle.std.specs.Prelude.{◌≡◌, ◌≤◌, IfOk, length, map};
ghost use Rattle.cnb_words.specs.Prune.{KeepsLimits};
ghost use Rattle.steps.specs.Outside.{seen};
ghost use Rattle.steps.specs.Steps.{removes};
ghost use Rattle.tree_store.specs.Store.{tree_path};
ghost use Rattle.store_prune.specs.Faults.{Blames, cause_of};
ghost use Rattle.store_prune.specs.Prunes.{prunes, prunes_command, removes_all, removes_trees};
ghost use Rattle.store_prune.specs.Pruning.{KeepsImages, KeepsNamed, KeepsNamedTrees, PrunesPrinted, PrunesUnnamed};

use crate::fault::PruneFault;
use crate::report::pruned_text;
use crate::surveying::{Pruned, survey};
use crate::trees::tree_file;
use cnb_words::PruneWords;
use cnb_world::{FileFault, List, Memory, Path, Text, World};
use std::alloc::Global;
use tree_canon::Digest;

// The refusal where a call on a path gave no answer.
fn blamed(alloc: Global, path: &Path, fault: FileFault) -> PruneFault
    ensures { Blames path.now fault result }
{
    match fault {
        FileFault::Failed => match path.copy(alloc) {
            Ok(path) => PruneFault::File(path),
            Err(Memory) => PruneFault::Memory,
        },
        FileFault::Memory => PruneFault::Memory,
    }
}

// Removes a file.
#[tactic(auto, unfolding(steps::specs::Steps::removes), using(steps::proofs::StepLemmas::allowed_by, crate::proofs::BlameLemmas::blamed_counts))]
fn remove_file<W: World>(alloc: Global, world: &mut W, path: &Path) -> Result<(), PruneFault>
    ensures step { removes cause_of path.now (seen W.World world.old) result (seen W.World world.new) }
{
    match world.remove(path) {
        Ok(()) => Ok(()),
        Err(fault) => Err(blamed(alloc, path, fault)),
    }
}

fn remove_all<W: World>(alloc: Global, world: &mut W, paths: &[Path]) -> Result<(), PruneFault>
    ensures steps { removes_all paths.now (seen W.World world.old) result (seen W.World world.new) }
{
    for path in paths {
        remove_file(alloc, world, path)?;
    }
    Ok(())
}

// The paths of the files of some trees.
fn tree_files(alloc: Global, store: &Path, digests: &[Digest]) -> Result<List<Path>, Memory>
    requires { length store.now ≤ 4096 }
    ensures { IfOk result (λ paths. paths ≡ map (tree_path store.now) digests.now) }
{
    let mut paths = List::new(alloc);
    for digest in digests {
        paths.push(tree_file(alloc, store, digest)?)?;
    }
    Ok(paths)
}

// Removes the files of some trees, in their order. The paths are all made before the first is removed.
fn remove_trees<W: World>(
    alloc: Global,
    world: &mut W,
    store: &Path,
    digests: &[Digest],
) -> Result<(), PruneFault>
    requires { length store.now ≤ 4096 }
    ensures steps { removes_trees store.now digests.now (seen W.World world.old) result (seen W.World world.new) }
{
    let paths = tree_files(alloc, store, digests)?;
    remove_all(alloc, world, paths.as_slice())
}

/// Removes the tree files of a store that none of its documents names. All documents are read before, and if one is
/// refused, nothing is removed.
pub fn prune<W: World>(alloc: Global, world: &mut W, store: &Path) -> Result<Pruned, PruneFault>
    requires { length store.now ≤ 4096 }
    ensures steps { prunes store.now (seen W.World world.old) result (seen W.World world.new) }
    ensures removed { PrunesUnnamed store.now (W.tree world.old) result (W.tree world.new) }
    ensures kept { KeepsNamed store.now (W.tree world.old) (W.tree world.new) }
    ensures named { KeepsNamedTrees store.now (W.tree world.old) (W.tree world.new) }
    ensures images { KeepsImages store.now (W.tree world.old) (W.tree world.new) }
{
    let pruned = survey(alloc, world, store)?;
    remove_trees(alloc, world, store, pruned.removed.as_slice())?;
    Ok(pruned)
}

/// Prunes a store, and gives the text to be printed, which is made before anything is removed.
pub fn prune_command<W: World>(
    alloc: Global,
    options: &PruneWords,
    world: &mut W,
) -> Result<Text, PruneFault>
    requires { KeepsLimits options.now }
    ensures steps { prunes_command options.now (seen W.World world.old) result (seen W.World world.new) }
    ensures removed { PrunesPrinted options.now.store (W.tree world.old) result (W.tree world.new) }
    ensures kept { KeepsNamed options.now.store (W.tree world.old) (W.tree world.new) }
    ensures named { KeepsNamedTrees options.now.store (W.tree world.old) (W.tree world.new) }
    ensures images { KeepsImages options.now.store (W.tree world.old) (W.tree world.new) }
{
    let pruned = survey(alloc, world, &options.store)?;
    let text = pruned_text(alloc, &pruned)?;
    remove_trees(alloc, world, &options.store, pruned.removed.as_slice())?;
    Ok(text)
}
