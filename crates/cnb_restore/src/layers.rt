// The layers of a buildpack.
ghost use Rattle.std.specs.Prelude.{◌≡◌, ◌≤◌, ◌<◌, ◌+◌, ◌^◌, false, IfOk, Some, length, map};
ghost use Rattle.std.specs.Option.{option_copied};
ghost use Rattle.shelf_set.specs.Caches.{caches_seen, world_and_caches};
ghost use Rattle.shelf_set.specs.Caches as seen_caches;
ghost use Rattle.steps.specs.Outside.{seen};
ghost use Rattle.steps.specs.Results.{with_fault};
ghost use Rattle.cnb_world.specs.Path.{joined};
ghost use Rattle.cnb_world.specs.Tree.{is_root};
ghost use Rattle.cnb_restore.specs.Faults.{of_laying_fault};
ghost use Rattle.cnb_restore.specs.Restores.{restores_contents, restores_document, restores_each, restores_found};
ghost use Rattle.cnb_restore.specs.Restores.{restores_held, restores_layer, restores_layers, restores_part};

use crate::fault::RestoreFault;
use crate::layer::write_layer_document;
use crate::restored::{Restored, after_search, with_layer};
use crate::rows::{layer_names, restored_part, row_of, source_of};
use cnb_toml::LayerName;
use cnb_world::{Memory, Path, Shelf, World};
use image_docs::LayerRow;
use layer_flags::RestoreRow;
use layer_paths::contents_path;
use shelf_set::{Caches, Found, Search, restore_tree};
use std::alloc::Global;
use tree_store::StoreFault;

// Writes the document of a layer, with its contents there or not.
fn restore_document<W: World>(
    alloc: Global,
    world: &mut W,
    folder: &Path,
    row: &LayerRow,
    contents: bool,
    restored: Restored,
) -> Result<Restored, RestoreFault>
    requires { length folder.now ≤ 4352 }
    ensures step { (caches : seen_caches.Caches) → restores_document folder.now row.now contents restored
        (world_and_caches (seen W.World world.old) caches) result (world_and_caches (seen W.World world.new) caches) }
    ensures gone { IfOk result (λ after. after.gone ≡ restored.gone) }
{
    write_layer_document(alloc, world, folder, row)?;
    let after = with_layer(alloc, restored, row, contents)?;
    Ok(after)
}

// Restores a layer by what was found under its digest.
#[tactic(auto, unfolding(crate::specs::Restores::restores_found, steps::specs::Steps::yields, steps::specs::Steps::gives))]
fn restore_found<W: World>(
    alloc: Global,
    world: &mut W,
    folder: &Path,
    row: &LayerRow,
    found: Found,
    restored: Restored,
) -> Result<Restored, RestoreFault>
    requires { length folder.now ≤ 4352 }
    ensures step { (caches : seen_caches.Caches) → restores_found folder.now row.now restored found
        (world_and_caches (seen W.World world.old) caches) result (world_and_caches (seen W.World world.new) caches) }
    ensures gone { IfOk result (λ after. after.gone ≡ restored.gone) }
{
    match found {
        Found::None => Ok(restored),
        Found::Damaged { asked, found, bad } => Err(RestoreFault::Damaged { asked, found, bad }),
        Found::Laid => restore_document(alloc, world, folder, row, true, restored),
    }
}

// Where the contents of a layer stand. It isn't `/`: its last part is the layer's name, which is looked at to see that it
// isn't empty.
#[tactic(auto, using(crate::proofs::FolderLemmas::below_plain))]
fn contents_below(alloc: Global, folder: &Path, layer: &LayerName) -> Result<Path, Memory>
    requires { length folder.now ≤ 4352 }
    ensures path { IfOk result (λ path. path ≡ joined folder.now layer.now) }
    ensures short { IfOk result (λ path. length path ≤ 8192) }
    ensures plain { IfOk result (λ path. is_root path ≡ false) }
{
    let _name = layer.as_str();
    let path = contents_path(alloc, folder, layer)?;
    Ok(path)
}

// What was found, or why nothing could be: laying a tree is refused for a failed call or for want of memory alone.
fn searched(answer: Result<Search, StoreFault>) -> Result<Search, RestoreFault>
    ensures { result ≡ with_fault of_laying_fault answer }
{
    match answer {
        Ok(search) => Ok(search),
        Err(StoreFault::File(path)) => Err(RestoreFault::File(path)),
        Err(_) => Err(RestoreFault::Memory),
    }
}

// Searches the caches for the contents of a layer, and lays them where a cache has them.
fn restore_held<W: World>(
    alloc: Global,
    world: &mut W,
    caches: &mut Caches,
    folder: &Path,
    row: &LayerRow,
) -> Result<Search, RestoreFault>
    requires { length folder.now ≤ 4352 }
    ensures step { restores_held folder.now row.now
        (world_and_caches (seen W.World world.old) (caches_seen ⟦<dyn Shelf as Shelf>⟧ caches.old)) result
        (world_and_caches (seen W.World world.new) (caches_seen ⟦<dyn Shelf as Shelf>⟧ caches.new)) }
    ensures count { IfOk result (λ search.
        length search.gone + length caches.new.places ≡ length caches.old.places) }
{
    let path = contents_below(alloc, folder, &row.layer)?;
    searched(restore_tree(
        alloc,
        world,
        &mut caches.shelves,
        &mut caches.places,
        &row.digest,
        &path,
    ))
}

// Restores a layer with its contents, where a cache has them.
fn restore_contents<W: World>(
    alloc: Global,
    world: &mut W,
    caches: &mut Caches,
    folder: &Path,
    row: &LayerRow,
    restored: Restored,
) -> Result<Restored, RestoreFault>
    requires short { length folder.now ≤ 4352 }
    requires few { length restored.gone + length caches.old.places < 2 ^ 32 }
    ensures step { restores_contents folder.now row.now restored
        (world_and_caches (seen W.World world.old) (caches_seen ⟦<dyn Shelf as Shelf>⟧ caches.old)) result
        (world_and_caches (seen W.World world.new) (caches_seen ⟦<dyn Shelf as Shelf>⟧ caches.new)) }
    ensures count { IfOk result (λ after. length after.gone + length caches.new.places
        ≡ length restored.gone + length caches.old.places) }
{
    let Search { found, gone } = restore_held(alloc, world, caches, folder, row)?;
    let counted = after_search(restored, &gone)?;
    restore_found(alloc, world, folder, row, found, counted)
}

// Restores a layer, by its line of the table.
#[tactic(auto, unfolding(crate::specs::Restores::restores_part, steps::specs::Steps::yields))]
fn restore_part<W: World>(
    alloc: Global,
    world: &mut W,
    caches: &mut Caches,
    folder: &Path,
    row: &LayerRow,
    part: RestoreRow,
    restored: Restored,
) -> Result<Restored, RestoreFault>
    requires short { length folder.now ≤ 4352 }
    requires few { length restored.gone + length caches.old.places < 2 ^ 32 }
    ensures step { restores_part folder.now (Some row.now) part restored
        (world_and_caches (seen W.World world.old) (caches_seen ⟦<dyn Shelf as Shelf>⟧ caches.old)) result
        (world_and_caches (seen W.World world.new) (caches_seen ⟦<dyn Shelf as Shelf>⟧ caches.new)) }
    ensures count { IfOk result (λ after. length after.gone + length caches.new.places
        ≡ length restored.gone + length caches.old.places) }
{
    match part {
        RestoreRow::Nothing => Ok(restored),
        RestoreRow::Meta => restore_document(alloc, world, folder, row, false, restored),
        RestoreRow::Both => restore_contents(alloc, world, caches, folder, row, restored),
    }
}

// Restores a layer of a buildpack.
#[tactic(auto, unfolding(crate::specs::Restores::restores_part, steps::specs::Steps::yields), using(crate::proofs::RestoreLemmas::layer_from))]
fn restore_layer<W: World>(
    alloc: Global,
    world: &mut W,
    caches: &mut Caches,
    folder: &Path,
    app: &[&LayerRow],
    cache: &[&LayerRow],
    name: &str,
    restored: Restored,
) -> Result<Restored, RestoreFault>
    requires short { length folder.now ≤ 4352 }
    requires few { length restored.gone + length caches.old.places < 2 ^ 32 }
    ensures step { restores_layer folder.now (map (λ row. row.now) app.now) (map (λ row. row.now) cache.now) name.now
        restored
        (world_and_caches (seen W.World world.old) (caches_seen ⟦<dyn Shelf as Shelf>⟧ caches.old)) result
        (world_and_caches (seen W.World world.new) (caches_seen ⟦<dyn Shelf as Shelf>⟧ caches.new)) }
    ensures count { IfOk result (λ after. length after.gone + length caches.new.places
        ≡ length restored.gone + length caches.old.places) }
{
    let app = row_of(name, app);
    let cache = row_of(name, cache);
    let part = restored_part(app, cache);
    match source_of(app, cache) {
        Some(row) => restore_part(alloc, world, caches, folder, row, part, restored),
        None => Ok(restored),
    }
}

// Restores layers, one after another.
fn restore_each<W: World>(
    alloc: Global,
    world: &mut W,
    caches: &mut Caches,
    folder: &Path,
    app: &[&LayerRow],
    cache: &[&LayerRow],
    names: &[&str],
    restored: Restored,
) -> Result<Restored, RestoreFault>
    requires short { length folder.now ≤ 4352 }
    requires few { length restored.gone + length caches.old.places < 2 ^ 32 }
    ensures step { restores_each folder.now (map (λ row. row.now) app.now) (map (λ row. row.now) cache.now)
        (map (λ name. name.now) names.now) restored
        (world_and_caches (seen W.World world.old) (caches_seen ⟦<dyn Shelf as Shelf>⟧ caches.old)) result
        (world_and_caches (seen W.World world.new) (caches_seen ⟦<dyn Shelf as Shelf>⟧ caches.new)) }
    ensures count { IfOk result (λ after. length after.gone + length caches.new.places
        ≡ length restored.gone + length caches.old.places) }
{
    let mut so_far = restored;
    for name in names {
        so_far = restore_layer(alloc, world, caches, folder, app, cache, name, so_far)?;
    }
    Ok(so_far)
}

/// Restores the layers of a buildpack, ascending.
pub(crate) fn restore_layers<W: World>(
    alloc: Global,
    world: &mut W,
    caches: &mut Caches,
    folder: &Path,
    app: &[&LayerRow],
    cache: &[&LayerRow],
    restored: Restored,
) -> Result<Restored, RestoreFault>
    requires short { length folder.now ≤ 4352 }
    requires few { length restored.gone + length caches.old.places < 2 ^ 32 }
    ensures step { restores_layers folder.now (map (λ row. row.now) app.now) (map (λ row. row.now) cache.now)
        restored
        (world_and_caches (seen W.World world.old) (caches_seen ⟦<dyn Shelf as Shelf>⟧ caches.old)) result
        (world_and_caches (seen W.World world.new) (caches_seen ⟦<dyn Shelf as Shelf>⟧ caches.new)) }
    ensures count { IfOk result (λ after. length after.gone + length caches.new.places
        ≡ length restored.gone + length caches.old.places) }
{
    let names = layer_names(alloc, app, cache)?;
    restore_each(alloc, world, caches, folder, app, cache, &names, restored)
}
