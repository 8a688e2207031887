// The tree files of a store.
ghost use Rattle.std.specs.Prelude.{◌≡◌, ◌≤◌, [], IfOk, Some, length};
ghost use Rattle.steps.specs.Each.{for_each};
ghost use Rattle.steps.specs.Outside.{seen};
ghost use Rattle.tree_store.specs.Store.{tree_path};
ghost use Rattle.tree_store.specs.Writing.{trees_of};
ghost use Rattle.store_prune.specs.Trees.{adds_digest, adds_tree, reads_trees, with_tree};

use crate::digits::tree_digest;
use crate::fault::PruneFault;
use crate::listing::{is_file_at, list_folder};
use cnb_world::{List, Memory, Path, Text, World};
use std::alloc::Global;
use tree_canon::Digest;

// The folder of the trees' files.
#[tactic(auto, using(cnb_world::proofs::Lengths::length_joined))]
fn trees_folder(alloc: Global, store: &Path) -> Result<Path, Memory>
    requires { length store.now ≤ 4096 }
    ensures path { IfOk result (λ path. path ≡ trees_of store.now) }
    ensures short { IfOk result (λ path. length path ≤ 4352) }
{
    let path = store.below(alloc, "trees")?;
    Ok(path)
}

/// The path of a tree's file.
#[tactic(auto, using(cnb_world::proofs::Lengths::length_joined, cnb_world::proofs::Lengths::part_within))]
pub(crate) fn tree_file(alloc: Global, store: &Path, digest: &Digest) -> Result<Path, Memory>
    requires { length store.now ≤ 4096 }
    ensures { IfOk result (λ path. path ≡ tree_path store.now digest.now) }
{
    let trees = trees_folder(alloc, store)?;
    let name = digest.text(alloc)?;
    let path = trees.below(alloc, name.as_str())?;
    Ok(path)
}

fn with_tree(trees: List<Digest>, digest: Digest, there: bool) -> Result<List<Digest>, Memory>
    ensures { IfOk result (λ more. more ≡ with_tree trees digest there) }
{
    let mut trees = trees;
    if there {
        trees.push(digest)?;
    }
    Ok(trees)
}

// Adds a digest, if its tree's file is a regular file.
fn add_digest<W: World>(
    alloc: Global,
    world: &mut W,
    store: &Path,
    digest: Digest,
    trees: List<Digest>,
) -> Result<List<Digest>, PruneFault>
    requires { length store.now ≤ 4096 }
    ensures steps { adds_digest store.now (Some digest) trees (seen W.World world.old) result (seen W.World world.new) }
{
    let path = tree_file(alloc, store, &digest)?;
    let there = is_file_at(alloc, world, &path)?;
    let trees = with_tree(trees, digest, there)?;
    Ok(trees)
}

// What a name in the folder of the trees' files gives.
fn add_tree<W: World>(
    alloc: Global,
    world: &mut W,
    store: &Path,
    name: &str,
    trees: List<Digest>,
) -> Result<List<Digest>, PruneFault>
    requires { length store.now ≤ 4096 }
    ensures steps { adds_tree store.now name.now trees (seen W.World world.old) result (seen W.World world.new) }
{
    match tree_digest(name) {
        Some(digest) => add_digest(alloc, world, store, digest, trees),
        None => Ok(trees),
    }
}

fn add_trees<W: World>(
    alloc: Global,
    world: &mut W,
    store: &Path,
    names: &[Text],
) -> Result<List<Digest>, PruneFault>
    requires { length store.now ≤ 4096 }
    ensures steps { for_each (adds_tree store.now) names.now [] (seen W.World world.old) result (seen W.World world.new) }
{
    let mut trees = List::new(alloc);
    for name in names {
        trees = add_tree(alloc, world, store, name.as_str(), trees)?;
    }
    Ok(trees)
}

/// The digests of the tree files of a store, ascending: of the regular files whose names are 64 digits.
pub(crate) fn read_trees<W: World>(
    alloc: Global,
    world: &mut W,
    store: &Path,
) -> Result<List<Digest>, PruneFault>
    requires { length store.now ≤ 4096 }
    ensures steps { reads_trees store.now (seen W.World world.old) result (seen W.World world.new) }
{
    let folder = trees_folder(alloc, store)?;
    let names = list_folder(alloc, world, &folder)?;
    add_trees(alloc, world, store, names.as_slice())
}
