// What a group left, gathered.
ghost use Rattle.std.specs.Prelude.{◌≡◌, ◌≤◌, IfOk, OnOk, length};
ghost use Rattle.steps.specs.Outside.{seen};
ghost use Rattle.cnb_layers.specs.Gathering.{exports_layer, is_cached, keeps_layer, keeps_documented, kept_of};
ghost use Rattle.cnb_layers.specs.Gathering.{nothing_gathered, with_image, with_layer, with_row};

use crate::fault::ExportFault;
use crate::frame::BuildpackFrame;
use crate::gathered::{Gathered, ImageLayer};
use crate::layer::{Contents, find_contents, read_layer_document};
use crate::settling::{Settled, settle};
use cnb_toml::{BpId, LayerName, Meta};
use cnb_world::{List, Memory, World};
use image_docs::LayerRow;
use layer_flags::Flags;
use layer_paths::layer_document;
use run_docs::LayerDoc;
use std::alloc::Global;

/// A layer that goes into the image, where `reused` says whether the previous image has the same, or into caches, where
/// it is `cached`.
#[derive(Drop)]
pub(crate) struct Kept {
    pub(crate) row: LayerRow,
    pub(crate) reused: Option<bool>,
    pub(crate) cached: bool,
}

/// Nothing yet.
pub(crate) fn nothing_gathered(alloc: Global) -> Gathered
    ensures { result ≡ nothing_gathered }
{
    Gathered {
        labels: List::new(alloc),
        processes: List::new(alloc),
        slices: List::new(alloc),
        store_rows: List::new(alloc),
        layers: List::new(alloc),
        cached: List::new(alloc),
    }
}

// Whether a layer goes into caches.
fn is_cached(flags: Flags, contents: &Contents) -> bool
    ensures { result ≡ is_cached flags contents.now }
{
    contents.there && flags.cache
}

fn kept_of(
    alloc: Global,
    id: &BpId,
    layer: &LayerName,
    flags: Flags,
    meta: Meta,
    cached: bool,
    settled: Option<Settled>,
) -> Result<Option<Kept>, Memory>
    ensures { IfOk result (λ kept. kept ≡ kept_of id.now layer.now flags meta cached settled) }
{
    match settled {
        Some(Settled { reused, digest }) => Ok(Some(Kept {
            row: LayerRow {
                id: id.copy(alloc)?,
                layer: layer.copy(alloc)?,
                flags,
                meta,
                digest,
            },
            reused,
            cached,
        })),
        None => Ok(None),
    }
}

// Finds the contents of a layer that has this document, and settles what becomes of it.
fn keep_documented<W: World>(
    alloc: Global,
    world: &mut W,
    frame: &BuildpackFrame,
    layer: &LayerName,
    doc: LayerDoc,
) -> Result<Option<Kept>, ExportFault>
    requires store { length frame.now.store.now ≤ 4096 }
    requires folder { length frame.now.folder.now ≤ 4352 }
    ensures step { keeps_documented frame.now.store.now frame.now.previous.now frame.now.id.now frame.now.folder.now
        layer.now doc (seen W.World world.old) result (seen W.World world.new) }
{
    let flags = Flags {
        launch: doc.launch,
        build: doc.build,
        cache: doc.cache,
    };
    let contents = find_contents(alloc, world, frame, layer, flags)?;
    let settled = settle(alloc, world, frame, layer, flags, &contents)?;
    let kept = kept_of(
        alloc,
        frame.id,
        layer,
        flags,
        doc.meta,
        is_cached(flags, &contents),
        settled,
    )?;
    Ok(kept)
}

// Reads a layer, and puts what the image needs of it into the store.
fn keep_layer<W: World>(
    alloc: Global,
    world: &mut W,
    frame: &BuildpackFrame,
    layer: &LayerName,
) -> Result<Option<Kept>, ExportFault>
    requires store { length frame.now.store.now ≤ 4096 }
    requires folder { length frame.now.folder.now ≤ 4352 }
    ensures step { keeps_layer frame.now.store.now frame.now.previous.now frame.now.id.now frame.now.folder.now
        layer.now (seen W.World world.old) result (seen W.World world.new) }
{
    let document = layer_document(alloc, frame.folder, layer)?;
    let doc = read_layer_document(alloc, world, &document)?;
    match doc {
        Some(doc) => keep_documented(alloc, world, frame, layer, doc),
        None => Ok(None),
    }
}

/// The same layer once more.
pub fn copy_layer(alloc: Global, row: &LayerRow) -> Result<LayerRow, Memory>
    ensures { IfOk result (λ copy. copy ≡ row.now) }
{
    Ok(LayerRow {
        id: row.id.copy(alloc)?,
        layer: row.layer.copy(alloc)?,
        flags: row.flags,
        meta: row.meta.copy(alloc)?,
        digest: row.digest,
    })
}

// Adds a layer that goes into the image.
fn add_to_image(
    alloc: Global,
    layers: &mut List<ImageLayer>,
    row: &LayerRow,
    reused: Option<bool>,
) -> Result<(), Memory>
    ensures { OnOk result (layers.new ≡ with_image layers.old row.now reused) }
{
    match reused {
        Some(reused) => layers.push(ImageLayer {
            row: copy_layer(alloc, row)?,
            reused,
        }),
        None => Ok(()),
    }
}

// Adds a layer, where it goes into caches.
fn add_to_caches(rows: &mut List<LayerRow>, row: LayerRow, cached: bool) -> Result<(), Memory>
    ensures { OnOk result (rows.new ≡ with_row rows.old row cached) }
{
    if cached {
        rows.push(row)?;
    }
    Ok(())
}

fn with_layer(alloc: Global, mut gathered: Gathered, kept: Kept) -> Result<Gathered, Memory>
    ensures { IfOk result (λ all. all ≡ with_layer gathered kept) }
{
    let Kept {
        row,
        reused,
        cached,
    } = kept;
    add_to_image(alloc, &mut gathered.layers, &row, reused)?;
    add_to_caches(&mut gathered.cached, row, cached)?;
    Ok(gathered)
}

/// Reads a layer, puts what the image needs of it into the store, and adds it to what was gathered.
pub(crate) fn export_layer<W: World>(
    alloc: Global,
    world: &mut W,
    frame: &BuildpackFrame,
    layer: &LayerName,
    gathered: Gathered,
) -> Result<Gathered, ExportFault>
    requires store { length frame.now.store.now ≤ 4096 }
    requires folder { length frame.now.folder.now ≤ 4352 }
    ensures step { exports_layer frame.now.store.now frame.now.previous.now frame.now.id.now frame.now.folder.now
        layer.now gathered (seen W.World world.old) result (seen W.World world.new) }
{
    let kept = keep_layer(alloc, world, frame, layer)?;
    match kept {
        Some(kept) => {
            let all = with_layer(alloc, gathered, kept)?;
            Ok(all)
        }
        None => Ok(gathered),
    }
}
