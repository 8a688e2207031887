// The trees above the layers.
ghost use Rattle.std.specs.Prelude.{◌≤◌, [], IfErr, length};
ghost use Rattle.steps.specs.Causes.{IsAnswer, IsGivenCause};
ghost use Rattle.steps.specs.Each.{for_each};
ghost use Rattle.steps.specs.Outside.{seen};
ghost use Rattle.cnb_layers.specs.Frame.{KeepsLimits};
ghost use Rattle.cnb_layers.specs.Refusals.{cause_of};
ghost use Rattle.cnb_export.specs.Trees.{cuts_app, links_tree, puts_app, puts_links, puts_part, puts_parts};
ghost use Rattle.cnb_export.specs.Trees.{puts_process, puts_trees, puts_whole};

use crate::ascending::last_of_each;
use crate::exported::Digests;
use crate::processes::links;
use app_slices::{Pattern, cut};
use cnb_layers::{ExportFault, ExportFrame};
use cnb_toml::Process;
use cnb_world::{LimitKind, List, Path, World};
use std::alloc::Global;
use tree_canon::{Digest, Tree};
use tree_store::{StoreFault, put, put_folder, read_tree};

fn links_tree(alloc: Global, processes: &[Process]) -> Result<Tree, ExportFault>
    ensures answer { IsAnswer cause_of result (links_tree processes.now) }
    ensures cause { IfErr result (λ fault. IsGivenCause (cause_of fault)) }
{
    match Tree::new(links(alloc, processes)?) {
        Ok(tree) => Ok(tree),
        Err(_) => Err(ExportFault::Store(StoreFault::Limit(LimitKind::Tree))),
    }
}

fn put_links<W: World>(
    alloc: Global,
    world: &mut W,
    store: &Path,
    processes: &[Process],
) -> Result<Option<Digest>, ExportFault>
    requires { length store.now ≤ 4096 }
    ensures step { puts_links store.now processes.now (seen W.World world.old) result (seen W.World world.new) }
{
    let tree = links_tree(alloc, processes)?;
    let digest = put(alloc, world, store, &tree)?;
    Ok(Some(digest))
}

#[tactic(auto, unfolding(steps::specs::Steps::yields))]
fn put_process<W: World>(
    alloc: Global,
    world: &mut W,
    store: &Path,
    processes: &[Process],
) -> Result<Option<Digest>, ExportFault>
    requires { length store.now ≤ 4096 }
    ensures step { puts_process store.now processes.now (seen W.World world.old) result (seen W.World world.new) }
{
    match processes {
        [] => Ok(None),
        [_, ..] => put_links(alloc, world, store, processes),
    }
}

// Puts the application's folder, of which nothing is kept in memory.
fn put_whole<W: World>(
    alloc: Global,
    world: &mut W,
    store: &Path,
    app: &Path,
) -> Result<List<Digest>, ExportFault>
    requires store { length store.now ≤ 4096 }
    requires app { length app.now ≤ 4096 }
    ensures step { puts_whole store.now app.now (seen W.World world.old) result (seen W.World world.new) }
{
    let digest = put_folder(alloc, world, store, app)?;
    let mut digests = List::new(alloc);
    digests.push(digest)?;
    Ok(digests)
}

// The trees that slices cut the application into. Its own tree isn't kept.
fn cut_app<W: World>(
    alloc: Global,
    world: &mut W,
    app: &Path,
    slices: &List<List<Pattern>>,
) -> Result<List<Tree>, ExportFault>
    requires { length app.now ≤ 4096 }
    ensures step { cuts_app app.now slices.now (seen W.World world.old) result (seen W.World world.new) }
{
    let tree = read_tree(alloc, world, app)?;
    let parts = cut(alloc, &tree, slices)?;
    Ok(parts)
}

// Puts a tree, which ends then.
fn put_part<W: World>(
    alloc: Global,
    world: &mut W,
    store: &Path,
    tree: Tree,
    mut digests: List<Digest>,
) -> Result<List<Digest>, ExportFault>
    requires { length store.now ≤ 4096 }
    ensures step { puts_part store.now tree digests (seen W.World world.old) result (seen W.World world.new) }
{
    let digest = put(alloc, world, store, &tree)?;
    digests.push(digest)?;
    Ok(digests)
}

fn put_each<W: World>(
    alloc: Global,
    world: &mut W,
    store: &Path,
    trees: List<Tree>,
) -> Result<List<Digest>, ExportFault>
    requires { length store.now ≤ 4096 }
    ensures step { for_each (puts_part store.now) trees [] (seen W.World world.old) result (seen W.World world.new) }
{
    let mut digests = List::new(alloc);
    for tree in trees.into_vec() {
        digests = put_part(alloc, world, store, tree, digests)?;
    }
    Ok(digests)
}

fn put_parts<W: World>(
    alloc: Global,
    world: &mut W,
    store: &Path,
    app: &Path,
    slices: &List<List<Pattern>>,
) -> Result<List<Digest>, ExportFault>
    requires store { length store.now ≤ 4096 }
    requires app { length app.now ≤ 4096 }
    ensures step { puts_parts store.now app.now slices.now (seen W.World world.old) result (seen W.World world.new) }
{
    let parts = cut_app(alloc, world, app, slices)?;
    put_each(alloc, world, store, parts)
}

// Puts the application: as it is, or cut into trees where there are slices.
fn put_app<W: World>(
    alloc: Global,
    world: &mut W,
    store: &Path,
    app: &Path,
    slices: &List<List<Pattern>>,
) -> Result<List<Digest>, ExportFault>
    requires store { length store.now ≤ 4096 }
    requires app { length app.now ≤ 4096 }
    ensures step { puts_app store.now app.now slices.now (seen W.World world.old) result (seen W.World world.new) }
{
    match slices.as_slice() {
        [] => put_whole(alloc, world, store, app),
        [_, ..] => put_parts(alloc, world, store, app, slices),
    }
}

/// Puts the trees of the application, of the launcher and of the links of the process types into the store.
pub(crate) fn put_trees<W: World>(
    alloc: Global,
    world: &mut W,
    frame: &ExportFrame,
    slices: &List<List<Pattern>>,
    processes: &[Process],
) -> Result<Digests, ExportFault>
    requires { KeepsLimits frame.now }
    ensures step { puts_trees frame.now slices.now processes.now (seen W.World world.old) result
        (seen W.World world.new) }
{
    let app = put_app(alloc, world, &frame.store, &frame.app, slices)?;
    let launcher = put_folder(alloc, world, &frame.store, &frame.launcher)?;
    let last = last_of_each(alloc, processes)?;
    let process = put_process(alloc, world, &frame.store, last.as_slice())?;
    Ok(Digests {
        app,
        launcher,
        process,
    })
}
