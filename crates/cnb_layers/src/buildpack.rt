// What one buildpack left.
ghost use Rattle.std.specs.Prelude.{◌≡◌, ◌++◌, ◌≤◌, [], IfErr, IfOk, None, OnOk, length};
ghost use Rattle.steps.specs.Causes.{IsAnswer, IsGivenCause};
ghost use Rattle.steps.specs.Each.{for_each};
ghost use Rattle.steps.specs.Outside.{seen};
ghost use Rattle.cnb_layers.specs.Buildpack.{defaults_of, exports_buildpack, exports_documents, exports_group};
ghost use Rattle.cnb_layers.specs.Buildpack.{exports_layers, exports_store_document, one_default, reads_launch};
ghost use Rattle.cnb_layers.specs.Buildpack.{reads_store_document, with_documents, with_store_row};
ghost use Rattle.cnb_layers.specs.Frame.{KeepsLimits};
ghost use Rattle.cnb_layers.specs.Gathering.{exports_layer};
ghost use Rattle.cnb_layers.specs.Refusals.{cause_of};

use crate::fault::ExportFault;
use crate::frame::{BuildpackFrame, ExportFrame};
use crate::gathered::Gathered;
use crate::gathering::{export_layer, nothing_gathered};
use crate::names::read_layer_names;
use crate::patterns::parse_slices;
use crate::reading::{read_launch_toml, read_store_toml};
use app_slices::Pattern;
use cnb_toml::{BpId, LayerName};
use cnb_world::{List, Memory, Path, World};
use image_docs::{LayerRow, StoreRow};
use layer_paths::layers_folder;
use run_docs::{GroupRow, LaunchToml, StoreToml};
use std::alloc::Global;

fn count_defaults(launch: &LaunchToml) -> usize
    ensures { result ≡ length (defaults_of launch.now.processes) }
{
    let mut count = 0usize;
    for process in launch.processes.as_slice() {
        if process.default {
            count += 1;
        }
    }
    count
}

// A `launch.toml` marks at most one default.
fn one_default(alloc: Global, id: &BpId, launch: LaunchToml) -> Result<LaunchToml, ExportFault>
    ensures answer { IsAnswer cause_of result (one_default id.now launch) }
    ensures cause { IfErr result (λ fault. IsGivenCause (cause_of fault)) }
{
    if count_defaults(&launch) > 1 {
        return Err(ExportFault::TwoDefaults(id.copy(alloc)?));
    }
    Ok(launch)
}

fn read_launch<W: World>(
    alloc: Global,
    world: &mut W,
    folder: &Path,
    id: &BpId,
) -> Result<LaunchToml, ExportFault>
    requires { length folder.now ≤ 4352 }
    ensures step { reads_launch folder.now id.now (seen W.World world.old) result (seen W.World world.new) }
{
    let path = folder.below(alloc, "launch.toml")?;
    let launch = read_launch_toml(alloc, world, &path)?;
    one_default(alloc, id, launch)
}

fn read_store_document<W: World>(
    alloc: Global,
    world: &mut W,
    folder: &Path,
) -> Result<Option<StoreToml>, ExportFault>
    requires { length folder.now ≤ 4352 }
    ensures step { reads_store_document folder.now (seen W.World world.old) result (seen W.World world.new) }
{
    let path = folder.below(alloc, "store.toml")?;
    read_store_toml(alloc, world, &path)
}

fn joined<T: Drop>(items: List<T>, more: List<T>) -> Result<List<T>, Memory>
    ensures { IfOk result (λ all. all ≡ items ++ more) }
{
    let mut all = items.into_vec();
    let mut more = more.into_vec();
    all.append(&mut more)?;
    Ok(List::from_vec(all))
}

fn push_store_row(
    alloc: Global,
    rows: &mut List<StoreRow>,
    id: &BpId,
    store_document: Option<StoreToml>,
) -> Result<(), Memory>
    ensures { OnOk result (rows.new ≡ with_store_row rows.old id.now store_document) }
{
    match store_document {
        Some(StoreToml { meta }) => rows.push(StoreRow {
            id: id.copy(alloc)?,
            meta,
        }),
        None => Ok(()),
    }
}

fn with_launch(
    gathered: Gathered,
    launch: LaunchToml,
    more: List<List<Pattern>>,
) -> Result<Gathered, Memory>
    ensures { IfOk result (λ all. all ≡ with_documents gathered [] launch more None) }
{
    let Gathered {
        labels,
        processes,
        slices,
        store_rows,
        layers,
        cached,
    } = gathered;
    Ok(Gathered {
        labels: joined(labels, launch.labels)?,
        processes: joined(processes, launch.processes)?,
        slices: joined(slices, more)?,
        store_rows,
        layers,
        cached,
    })
}

fn with_documents(
    alloc: Global,
    gathered: Gathered,
    id: &BpId,
    launch: LaunchToml,
    more: List<List<Pattern>>,
    store_document: Option<StoreToml>,
) -> Result<Gathered, Memory>
    ensures { IfOk result (λ all. all ≡ with_documents gathered id.now launch more store_document) }
{
    let mut all = with_launch(gathered, launch, more)?;
    push_store_row(alloc, &mut all.store_rows, id, store_document)?;
    Ok(all)
}

fn export_store_document<W: World>(
    alloc: Global,
    world: &mut W,
    frame: &BuildpackFrame,
    gathered: Gathered,
    launch: LaunchToml,
    slices: List<List<Pattern>>,
) -> Result<Gathered, ExportFault>
    requires { length frame.now.folder.now ≤ 4352 }
    ensures step { exports_store_document frame.now.folder.now frame.now.id.now gathered launch slices
        (seen W.World world.old) result (seen W.World world.new) }
{
    let store_document = read_store_document(alloc, world, frame.folder)?;
    let all = with_documents(alloc, gathered, frame.id, launch, slices, store_document)?;
    Ok(all)
}

fn export_documents<W: World>(
    alloc: Global,
    world: &mut W,
    frame: &BuildpackFrame,
    gathered: Gathered,
) -> Result<Gathered, ExportFault>
    requires { length frame.now.folder.now ≤ 4352 }
    ensures step { exports_documents frame.now.folder.now frame.now.id.now gathered (seen W.World world.old) result
        (seen W.World world.new) }
{
    let launch = read_launch(alloc, world, frame.folder, frame.id)?;
    let slices = parse_slices(alloc, frame.id, launch.slices.as_slice())?;
    export_store_document(alloc, world, frame, gathered, launch, slices)
}

fn export_each<W: World>(
    alloc: Global,
    world: &mut W,
    frame: &BuildpackFrame,
    layers: &[LayerName],
    gathered: Gathered,
) -> Result<Gathered, ExportFault>
    requires store { length frame.now.store.now ≤ 4096 }
    requires folder { length frame.now.folder.now ≤ 4352 }
    ensures step { for_each
        (exports_layer frame.now.store.now frame.now.previous.now frame.now.id.now frame.now.folder.now)
        layers.now gathered (seen W.World world.old) result (seen W.World world.new) }
{
    let mut all = gathered;
    for layer in layers {
        all = export_layer(alloc, world, frame, layer, all)?;
    }
    Ok(all)
}

fn export_layers<W: World>(
    alloc: Global,
    world: &mut W,
    frame: &BuildpackFrame,
    gathered: Gathered,
) -> Result<Gathered, ExportFault>
    requires store { length frame.now.store.now ≤ 4096 }
    requires folder { length frame.now.folder.now ≤ 4352 }
    ensures step { exports_layers frame.now.store.now frame.now.previous.now frame.now.id.now frame.now.folder.now
        gathered (seen W.World world.old) result (seen W.World world.new) }
{
    let names = read_layer_names(alloc, world, frame.folder)?;
    export_each(alloc, world, frame, names.as_slice(), gathered)
}

fn export_buildpack<W: World>(
    alloc: Global,
    world: &mut W,
    frame: &ExportFrame,
    previous: &[LayerRow],
    row: &GroupRow,
    gathered: Gathered,
) -> Result<Gathered, ExportFault>
    requires { KeepsLimits frame.now }
    ensures step { exports_buildpack frame.now previous.now row.now gathered
        (seen W.World world.old) result (seen W.World world.new) }
{
    let folder = layers_folder(alloc, &frame.layers, &row.key.id)?;
    let buildpack = BuildpackFrame {
        id: &row.key.id,
        folder: &folder,
        store: &frame.store,
        previous,
    };
    let documents = export_documents(alloc, world, &buildpack, gathered)?;
    export_layers(alloc, world, &buildpack, documents)
}

/// Reads what each buildpack of a group left, in order, and puts the trees of the image's layers into the store.
pub fn export_group<W: World>(
    alloc: Global,
    world: &mut W,
    frame: &ExportFrame,
    previous: &[LayerRow],
    group: &[GroupRow],
) -> Result<Gathered, ExportFault>
    requires { KeepsLimits frame.now }
    ensures step { exports_group frame.now previous.now group.now (seen W.World world.old) result
        (seen W.World world.new) }
{
    let mut all = nothing_gathered(alloc);
    for row in group {
        all = export_buildpack(alloc, world, frame, previous, row, all)?;
    }
    Ok(all)
}
