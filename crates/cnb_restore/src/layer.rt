// What is written of a restored layer.
ghost use Rattle.std.specs.Prelude.{◌≤◌, IfOk, Some, length};
ghost use Rattle.std.specs.Option.{option_copied};
ghost use Rattle.steps.specs.Outside.{seen};
ghost use Rattle.cnb_restore.specs.Layers.{ReadsAsLayer, ReadsAsStore, writes_layer, writes_store};

use crate::fault::RestoreFault;
use crate::paths::document_name;
use cnb_toml::Meta;
use cnb_world::{Bytes, Memory, Path, World};
use doc_files::write_document;
use image_docs::{LayerRow, StoreRow};
use run_docs::{LayerDoc, StoreToml, write_layer, write_store};
use std::alloc::Global;

fn layer_bytes(alloc: Global, meta: &Meta) -> Result<Bytes, Memory>
    ensures { IfOk result (ReadsAsLayer meta.now) }
{
    let meta = meta.copy(alloc)?;
    let layer = LayerDoc {
        launch: false,
        build: false,
        cache: false,
        meta,
    };
    write_layer(alloc, &layer)
}

fn store_bytes(alloc: Global, meta: &Meta) -> Result<Bytes, Memory>
    ensures { IfOk result (ReadsAsStore meta.now) }
{
    let meta = meta.copy(alloc)?;
    let store = StoreToml { meta };
    write_store(alloc, &store)
}

/// Writes the document of a layer.
pub(crate) fn write_layer_document<W: World>(
    alloc: Global,
    world: &mut W,
    folder: &Path,
    row: &LayerRow,
) -> Result<(), RestoreFault>
    requires { length folder.now ≤ 4352 }
    ensures step { writes_layer folder.now row.now (seen W.World world.old) result (seen W.World world.new) }
{
    let bytes = layer_bytes(alloc, &row.meta)?;
    let name = document_name(alloc, row.layer.as_str())?;
    write_document::<W, RestoreFault>(alloc, world, folder, name.as_str(), bytes.as_slice())?;
    Ok(())
}

fn write_kept<W: World>(
    alloc: Global,
    world: &mut W,
    folder: &Path,
    row: &StoreRow,
) -> Result<(), RestoreFault>
    requires { length folder.now ≤ 4352 }
    ensures step { writes_store folder.now (Some row.now) (seen W.World world.old) result (seen W.World world.new) }
{
    let bytes = store_bytes(alloc, &row.meta)?;
    write_document::<W, RestoreFault>(alloc, world, folder, "store.toml", bytes.as_slice())?;
    Ok(())
}

/// Writes `store.toml`, where the previous image keeps something for the buildpack.
#[tactic(auto, unfolding(crate::specs::Layers::writes_store, steps::specs::Steps::yields))]
pub(crate) fn write_store_document<W: World>(
    alloc: Global,
    world: &mut W,
    folder: &Path,
    row: Option<&StoreRow>,
) -> Result<(), RestoreFault>
    requires { length folder.now ≤ 4352 }
    ensures step { writes_store folder.now (option_copied row.entry)
        (seen W.World world.old) result (seen W.World world.new) }
{
    match row {
        Some(row) => write_kept(alloc, world, folder, row),
        None => Ok(()),
    }
}
