// The image.
ghost use Rattle.std.specs.Prelude.{◌≡◌, IfOk, IsTrue, OnOk, map};
ghost use Rattle.std.specs.List.{list_all};
ghost use Rattle.std.specs.Option.{option_copied};
ghost use Rattle.cnb_world.specs.Path.{is_short_path};
ghost use Rattle.image_docs.specs.Row.{is_row};
ghost use Rattle.cnb_export.specs.Image.{image_of, key_of, launch_of};
ghost use Rattle.cnb_layers.specs.Gathering.{layer_of};
ghost use Rattle.cnb_export.specs.Ascending.{label_key, last_of_each};
ghost use Rattle.cnb_export.specs.Processes as processes;
ghost use Rattle.cnb_export.specs.Rows.{layer_row};

use crate::ascending::last_of_each;
use crate::exported::{Digests, ImageFrame};
use crate::processes::{default_of, entrypoint};
use crate::rows::image_rows;
use cnb_layers::{Gathered, ImageLayer, copy_layer};
use cnb_toml::{Key, Label, ProcType, Process};
use cnb_world::{List, Memory};
use image_docs::{ImageDoc, LaunchDoc, LayerRow, StoreRow};
use image_files::{base_of, image_env};
use run_docs::{GroupDoc, GroupRow};
use std::alloc::Global;

fn keys(alloc: Global, group: &[GroupRow]) -> Result<List<Key>, Memory>
    ensures { IfOk result (λ keys. keys ≡ map key_of group.now) }
{
    let mut keys = List::new(alloc);
    for row in group {
        keys.push(row.key.copy(alloc)?)?;
    }
    Ok(keys)
}

fn copy_type(alloc: Global, kind: Option<&ProcType>) -> Result<Option<ProcType>, Memory>
    ensures { IfOk result (λ copy. copy ≡ option_copied kind.entry) }
{
    match kind {
        Some(kind) => Ok(Some(kind.copy(alloc)?)),
        None => Ok(None),
    }
}

fn launch(
    alloc: Global,
    group: &GroupDoc,
    processes: &[Process],
    default: Option<&ProcType>,
) -> Result<LaunchDoc, Memory>
    ensures { IfOk result (λ launch. launch ≡ launch_of group.now processes.now (option_copied default.entry)) }
{
    Ok(LaunchDoc {
        buildpacks: keys(alloc, group.as_slice())?,
        processes: last_of_each(alloc, processes)?,
        default: copy_type(alloc, default)?,
    })
}

fn layers(alloc: Global, layers: &[ImageLayer]) -> Result<List<LayerRow>, Memory>
    ensures { IfOk result (λ rows. rows ≡ map layer_of layers.now) }
{
    let mut rows = List::new(alloc);
    for layer in layers {
        rows.push(copy_layer(alloc, &layer.row)?)?;
    }
    Ok(rows)
}

fn store(alloc: Global, rows: &[StoreRow]) -> Result<List<StoreRow>, Memory>
    ensures { IfOk result (λ copies. copies ≡ rows.now) }
{
    let mut copies = List::new(alloc);
    for row in rows {
        copies.push(StoreRow {
            id: row.id.copy(alloc)?,
            meta: row.meta.copy(alloc)?,
        })?;
    }
    Ok(copies)
}

/// What buildpacks gave to an image.
struct Provided {
    labels: List<Label>,
    launch: LaunchDoc,
    layers: List<LayerRow>,
    store: List<StoreRow>,
}

fn provided_by(
    alloc: Global,
    group: &GroupDoc,
    gathered: &Gathered,
    default: Option<&ProcType>,
) -> Result<Provided, Memory>
    ensures labels { IfOk result (λ all. all.labels ≡ last_of_each label_key gathered.now.labels) }
    ensures launch { IfOk result (λ all. all.launch
        ≡ launch_of group.now gathered.now.processes (option_copied default.entry)) }
    ensures layers { IfOk result (λ all. all.layers ≡ map layer_of gathered.now.layers) }
    ensures store { IfOk result (λ all. all.store ≡ gathered.now.store_rows) }
{
    Ok(Provided {
        labels: last_of_each(alloc, gathered.labels.as_slice())?,
        launch: launch(alloc, group, gathered.processes.as_slice(), default)?,
        layers: layers(alloc, gathered.layers.as_slice())?,
        store: store(alloc, gathered.store_rows.as_slice())?,
    })
}

/// The image of what was gathered.
pub(crate) fn make_image(
    alloc: Global,
    frame: &ImageFrame,
    gathered: &Gathered,
    digests: &Digests,
) -> Result<ImageDoc, Memory>
    ensures image { IfOk result (λ image. image
        ≡ image_of frame.now.name.now frame.now.run.now frame.now.group.now gathered.now digests.now) }
    ensures placed { OnOk result (IsTrue (list_all is_row (map (layer_row frame.now.group.now) gathered.now.layers))) }
    ensures started { OnOk result (IsTrue (is_short_path
        (processes.entrypoint_of (processes.default_of gathered.now.processes)))) }
{
    let default = default_of(gathered.processes.as_slice());
    let base = base_of(alloc, frame.name, frame.run, digests.launcher)?;
    let rows = image_rows(alloc, frame, gathered, digests)?;
    let env = image_env(alloc, &frame.run.env)?;
    let entrypoint = entrypoint(alloc, default)?;
    let Provided {
        labels,
        launch,
        layers,
        store,
    } = provided_by(alloc, frame.group, gathered, default)?;
    Ok(ImageDoc {
        base,
        rows,
        env,
        entrypoint,
        labels,
        launch,
        layers,
        store,
    })
}
