// What a prune removes.
ghost use Rattle.std.specs.Prelude.{◌≡◌, ◌≤◌, ◌-◌, IfOk, length};
ghost use Rattle.steps.specs.Outside.{seen};
ghost use Rattle.store_prune.specs.Surveys.{pruned_of, surveys};

use crate::digits::unnamed;
use crate::fault::PruneFault;
use crate::named::read_named;
use crate::trees::read_trees;
use cnb_world::{List, Memory, Path, World};
use std::alloc::Global;
use tree_canon::Digest;

/// How many tree files are left, and those that are removed, ascending.
#[derive(Drop)]
pub struct Pruned {
    pub kept: u64,
    pub removed: List<Digest>,
}

// How many are left.
fn kept_of(trees: &[Digest], removed: &[Digest]) -> u64
    requires { length removed.now ≤ length trees.now }
    ensures { result ≡ length trees.now - length removed.now }
{
    (trees.len() - removed.len()) as u64
}

fn pruned_of(alloc: Global, named: List<Digest>, trees: &[Digest]) -> Result<Pruned, Memory>
    ensures { IfOk result (λ pruned. pruned ≡ pruned_of named trees.now) }
{
    let removed = unnamed(alloc, named, trees)?;
    let kept = kept_of(trees, removed.as_slice());
    Ok(Pruned { kept, removed })
}

/// Reads all documents of a store, then lists its tree files, and gives what a prune removes. Nothing is changed.
pub(crate) fn survey<W: World>(
    alloc: Global,
    world: &mut W,
    store: &Path,
) -> Result<Pruned, PruneFault>
    requires { length store.now ≤ 4096 }
    ensures steps { surveys store.now (seen W.World world.old) result (seen W.World world.new) }
{
    let named = read_named(alloc, world, store)?;
    let trees = read_trees(alloc, world, store)?;
    let pruned = pruned_of(alloc, named, trees.as_slice())?;
    Ok(pruned)
}
