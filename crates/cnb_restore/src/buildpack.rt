// A buildpack's folder of layers.
ghost use Rattle.std.specs.Prelude.{◌≡◌, ◌≤◌, ◌<◌, ◌+◌, ◌^◌, IfOk, length};
ghost use Rattle.shelf_set.specs.Caches.{caches_seen, world_and_caches};
ghost use Rattle.steps.specs.Outside.{seen};
ghost use Rattle.cnb_restore.specs.Restores.{prepares_folder, restores_buildpack, restores_group, restores_rows};

use crate::fault::RestoreFault;
use crate::folders::{make_folder, remove};
use crate::layer::write_store_document;
use crate::layers::restore_layers;
use crate::restored::Restored;
use crate::rows::{kept_for, rows_of};
use crate::sources::{Sources, layers_of, store_of};
use cnb_toml::BpId;
use cnb_world::{Path, Shelf, World};
use image_docs::StoreRow;
use layer_paths::layers_folder;
use run_docs::GroupRow;
use shelf_set::Caches;
use std::alloc::Global;

// Removes a buildpack's folder and makes it anew, with what the previous image keeps for it.
fn prepare_folder<W: World>(
    alloc: Global,
    world: &mut W,
    folder: &Path,
    id: &BpId,
    kept: &[StoreRow],
) -> Result<(), RestoreFault>
    requires { length folder.now ≤ 4352 }
    ensures step { prepares_folder folder.now id.now kept.now (seen W.World world.old) result (seen W.World world.new) }
{
    remove(alloc, world, folder)?;
    make_folder(alloc, world, folder)?;
    write_store_document(alloc, world, folder, kept_for(id, kept))
}

// Restores the layers of a buildpack in its folder.
fn restore_rows<W: World>(
    alloc: Global,
    world: &mut W,
    caches: &mut Caches,
    folder: &Path,
    sources: &Sources,
    id: &BpId,
    restored: Restored,
) -> Result<Restored, RestoreFault>
    requires short { length folder.now ≤ 4352 }
    requires few { length restored.gone + length caches.old.places < 2 ^ 32 }
    ensures step { restores_rows folder.now sources.now id.now restored
        (world_and_caches (seen W.World world.old) (caches_seen ⟦<dyn Shelf as Shelf>⟧ caches.old)) result
        (world_and_caches (seen W.World world.new) (caches_seen ⟦<dyn Shelf as Shelf>⟧ caches.new)) }
    ensures count { IfOk result (λ after. length after.gone + length caches.new.places
        ≡ length restored.gone + length caches.old.places) }
{
    let app = rows_of(alloc, id, layers_of(&sources.previous))?;
    let cache = rows_of(alloc, id, sources.rows.as_slice())?;
    restore_layers(alloc, world, caches, folder, &app, &cache, restored)
}

// Restores a buildpack.
fn restore_buildpack<W: World>(
    alloc: Global,
    world: &mut W,
    caches: &mut Caches,
    layers: &Path,
    sources: &Sources,
    id: &BpId,
    restored: Restored,
) -> Result<Restored, RestoreFault>
    requires short { length layers.now ≤ 4096 }
    requires few { length restored.gone + length caches.old.places < 2 ^ 32 }
    ensures step { restores_buildpack layers.now sources.now id.now restored
        (world_and_caches (seen W.World world.old) (caches_seen ⟦<dyn Shelf as Shelf>⟧ caches.old)) result
        (world_and_caches (seen W.World world.new) (caches_seen ⟦<dyn Shelf as Shelf>⟧ caches.new)) }
    ensures count { IfOk result (λ after. length after.gone + length caches.new.places
        ≡ length restored.gone + length caches.old.places) }
{
    let folder = layers_folder(alloc, layers, id)?;
    prepare_folder(alloc, world, &folder, id, store_of(&sources.previous))?;
    restore_rows(alloc, world, caches, &folder, sources, id, restored)
}

/// Restores the buildpacks of a group, in order.
pub(crate) fn restore_group<W: World>(
    alloc: Global,
    world: &mut W,
    caches: &mut Caches,
    layers: &Path,
    sources: &Sources,
    group: &[GroupRow],
    restored: Restored,
) -> Result<Restored, RestoreFault>
    requires short { length layers.now ≤ 4096 }
    requires few { length restored.gone + length caches.old.places < 2 ^ 32 }
    ensures step { restores_group layers.now sources.now group.now restored
        (world_and_caches (seen W.World world.old) (caches_seen ⟦<dyn Shelf as Shelf>⟧ caches.old)) result
        (world_and_caches (seen W.World world.new) (caches_seen ⟦<dyn Shelf as Shelf>⟧ caches.new)) }
    ensures count { IfOk result (λ after. length after.gone + length caches.new.places
        ≡ length restored.gone + length caches.old.places) }
{
    let mut so_far = restored;
    for row in group {
        so_far = restore_buildpack(alloc, world, caches, layers, sources, &row.key.id, so_far)?;
    }
    Ok(so_far)
}
