// Restoring the layers of a group.
ghost use Rattle.std.specs.Prelude.{◌≡◌, ◌≤◌, ◌<◌, ◌+◌, ◌^◌, IfOk, length};
ghost use Rattle.shelf_set.specs.Caches.{caches_seen, world_and_caches};
ghost use Rattle.steps.specs.Outside.{seen};
ghost use Rattle.cnb_restore.specs.RestoredFiles.{LeavesRestored};
ghost use Rattle.cnb_restore.specs.Restores.{restores};
ghost use Rattle.cnb_restore.specs.RestoresFrom.{gathers_named, restores_named};

use crate::buildpack::restore_group;
use crate::fault::RestoreFault;
use crate::images::read_previous;
use crate::restored::{Restored, first};
use crate::rows::see_names;
use crate::sources::{Sources, layers_of};
use cnb_world::{List, Path, Shelf, World};
use image_docs::Analyzed;
use run_docs::{GroupDoc, GroupRow};
use shelf_set::{Caches, Gathered, gather};
use std::alloc::Global;

// Gathers the rows of the caches.
#[tactic(auto, unfolding(crate::specs::RestoresFrom::gathers_named, shelf_set::specs::CacheSteps::gathers), using(shelf_set::proofs::CountLemmas::gathers_count))]
fn gather_rows(alloc: Global, caches: &mut Caches) -> Result<Gathered, RestoreFault>
    ensures step { gathers_named (caches_seen ⟦<dyn Shelf as Shelf>⟧ caches.old) result
        (caches_seen ⟦<dyn Shelf as Shelf>⟧ caches.new) }
    ensures count { IfOk result (λ gathered.
        length gathered.gone + length caches.new.places ≡ length caches.old.places) }
{
    let gathered = gather(alloc, &mut caches.shelves, &mut caches.places)?;
    see_names(gathered.rows.as_slice());
    Ok(gathered)
}

// Gathers the rows of the caches, and restores the buildpacks from them and from the previous image.
fn restore_from<W: World>(
    alloc: Global,
    world: &mut W,
    caches: &mut Caches,
    layers: &Path,
    sources: &mut Sources,
    group: &[GroupRow],
) -> Result<Restored, RestoreFault>
    requires short { length layers.now ≤ 4096 }
    requires few { length caches.old.shelves.items < 2 ^ 32 }
    ensures steps { restores_named layers.now group.now sources.old.previous
        (world_and_caches (seen W.World world.old) (caches_seen ⟦<dyn Shelf as Shelf>⟧ caches.old)) result
        (world_and_caches (seen W.World world.new) (caches_seen ⟦<dyn Shelf as Shelf>⟧ caches.new)) }
{
    let Gathered { rows, unread, gone } = gather_rows(alloc, caches)?;
    sources.rows = rows;
    let restored = first(alloc, unread, gone)?;
    restore_group(alloc, world, caches, layers, sources, group, restored)
}

/// Restores for each buildpack of a group what it left in its layers folder at the build of the analyzed previous image
/// (platform.md, "restorer"). After a refusal the layers folder holds a part.
pub fn restore<W: World>(
    alloc: Global,
    world: &mut W,
    caches: &mut Caches,
    store: &Path,
    analyzed: &Analyzed,
    group: &GroupDoc,
    layers: &Path,
) -> Result<Restored, RestoreFault>
    requires store { length store.now ≤ 4096 }
    requires layers { length layers.now ≤ 4096 }
    requires few { length caches.old.shelves.items < 2 ^ 32 }
    ensures steps { restores store.now analyzed.now.previous group.now layers.now
        (world_and_caches (seen W.World world.old) (caches_seen ⟦<dyn Shelf as Shelf>⟧ caches.old)) result
        (world_and_caches (seen W.World world.new) (caches_seen ⟦<dyn Shelf as Shelf>⟧ caches.new)) }
    ensures files { IfOk result (λ restored. LeavesRestored store.now analyzed.now.previous group.now layers.now
        (world_and_caches (seen W.World world.old) (caches_seen ⟦<dyn Shelf as Shelf>⟧ caches.old)) restored
        (world_and_caches (seen W.World world.new) (caches_seen ⟦<dyn Shelf as Shelf>⟧ caches.new))) }
{
    let previous = read_previous(alloc, world, store, analyzed.previous.as_ref())?;
    see_names(layers_of(&previous));
    let mut sources = Sources {
        previous,
        rows: List::new(alloc),
    };
    restore_from(alloc, world, caches, layers, &mut sources, group.as_slice())
}
