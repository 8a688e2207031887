// The layers of earlier builds.
ghost use Rattle.std.specs.Prelude.{◌<◌, ◌^◌, length};
ghost use Rattle.cnb_words.specs.Create.{KeepsLimits};
ghost use Rattle.shelf_set.specs.Caches.{caches_seen, world_and_caches};
ghost use Rattle.steps.specs.Outside.{seen};
ghost use Rattle.steps.specs.Steps.{map_err};
ghost use Rattle.cnb_create.specs.Creates.{restores_layers};
ghost use Rattle.cnb_create.specs.declared.refusal.CreateRefusal.TheVariants as refused;

use crate::refusal::CreateRefusal;
use cnb_restore::{Restored, restore};
use cnb_words::CreateWords;
use cnb_world::{Shelf, World};
use image_docs::Analyzed;
use run_docs::GroupDoc;
use shelf_set::Caches;
use std::alloc::Global;

/// Restores the layers of the group's buildpacks, from the previous image and the caches.
pub(crate) fn restore_layers<W: World>(
    alloc: Global,
    options: &CreateWords,
    world: &mut W,
    caches: &mut Caches,
    analyzed: &Analyzed,
    group: &GroupDoc,
) -> Result<Restored, CreateRefusal>
    requires limits { KeepsLimits options.now }
    requires few { length caches.old.shelves.items < 2 ^ 32 }
    ensures steps { map_err refused.Restore (restores_layers options.now analyzed.now group.now)
        (world_and_caches (seen W.World world.old) (caches_seen ⟦<dyn Shelf as Shelf>⟧ caches.old)) result
        (world_and_caches (seen W.World world.new) (caches_seen ⟦<dyn Shelf as Shelf>⟧ caches.new)) }
{
    let restored = restore(
        alloc,
        world,
        caches,
        &options.store,
        analyzed,
        group,
        &options.layers,
    )?;
    Ok(restored)
}
