// The export of an image.
ghost use Rattle.std.specs.Prelude.{◌≡◌, ◌≤◌, IfOk, IsTrue, OnOk, length, map};
ghost use Rattle.std.specs.List.{AllByRecursion, list_all};
ghost use Rattle.cnb_toml.specs.Names.{is_image_name};
ghost use Rattle.cnb_world.specs.Path.{is_short_path};
ghost use Rattle.image_docs.specs.CacheRows.{is_cache_doc};
ghost use Rattle.image_docs.specs.Image.{is_image_doc};
ghost use Rattle.image_docs.specs.Row.{is_row};
ghost use Rattle.image_docs.specs.RunImage.{is_run_doc};
ghost use Rattle.run_docs.specs.Group.{is_group_doc};
ghost use Rattle.shelf_set.specs.Caches.{caches_seen, world_and_caches};
ghost use Rattle.shelf_set.specs.Caching.{IsShort};
ghost use Rattle.steps.specs.Outside.{seen};
ghost use Rattle.cnb_export.specs.Exports.{exported_row, exports, folder_of, gained_of, gains, gains_over};
ghost use Rattle.cnb_layers.specs.Frame.{KeepsLimits};
ghost use Rattle.cnb_export.specs.OneImage.{IsOneImage};
ghost use Rattle.cnb_export.specs.Processes as processes;
ghost use Rattle.cnb_export.specs.Rows.{layer_row};

use crate::exported::{Digests, Exported, ExportedRow, ImageFrame};
use crate::image::make_image;
use crate::images::{read_previous, read_run_image};
use crate::trees::put_trees;
use cnb_layers::{ExportFault, ExportFrame, Gathered, ImageLayer, contents_folder, export_group};
use cnb_toml::ImageName;
use cnb_world::{List, Memory, Path, Shelf, World};
use image_docs::{Analyzed, CacheDoc, ImageDoc, LayerRow};
use layer_paths::layers_folder;
use run_docs::GroupDoc;
use shelf_set::{Caches, store_all};
use std::alloc::Global;

/// The image, its layers, and the layers that go into caches.
#[derive(Drop)]
pub(crate) struct Gained {
    pub(crate) image: ImageDoc,
    pub(crate) rows: List<ExportedRow>,
    pub(crate) cached: CacheDoc,
}

fn exported_rows(alloc: Global, layers: &[ImageLayer]) -> Result<List<ExportedRow>, Memory>
    ensures { IfOk result (λ rows. rows ≡ map exported_row layers.now) }
{
    let mut rows = List::new(alloc);
    for layer in layers {
        rows.push(ExportedRow {
            id: layer.row.id.copy(alloc)?,
            layer: layer.row.layer.copy(alloc)?,
            reused: layer.reused,
        })?;
    }
    Ok(rows)
}

// The image of what was gathered, its layers, and what goes into caches.
fn assemble(
    alloc: Global,
    frame: &ImageFrame,
    gathered: Gathered,
    digests: &Digests,
) -> Result<Gained, Memory>
    ensures gained { IfOk result (λ gained. gained
        ≡ gained_of frame.now.name.now frame.now.run.now frame.now.group.now gathered digests.now) }
    ensures placed { OnOk result (IsTrue (list_all is_row (map (layer_row frame.now.group.now) gathered.layers))) }
    ensures started { OnOk result (IsTrue (is_short_path
        (processes.entrypoint_of (processes.default_of gathered.processes)))) }
{
    let image = make_image(alloc, frame, &gathered, digests)?;
    let rows = exported_rows(alloc, gathered.layers.as_slice())?;
    Ok(Gained {
        image,
        rows,
        cached: gathered.cached,
    })
}

// What the type of an image's name says of it.
fn named(name: &ImageName)
    ensures { IsTrue (is_image_name name.now) }
{
    let _name = name.as_str();
}

// What is gained over a run image and the layers of the previous image.
fn gain_over<W: World>(
    alloc: Global,
    world: &mut W,
    frame: &ExportFrame,
    image_frame: &ImageFrame,
    previous: &[LayerRow],
) -> Result<Gained, ExportFault>
    requires limits { KeepsLimits frame.now }
    requires run { IsTrue (is_run_doc image_frame.now.run.now) }
    ensures step { gains_over frame.now image_frame.now.group.now image_frame.now.name.now image_frame.now.run.now
        previous.now (seen W.World world.old) result (seen W.World world.new) }
    ensures readable { IsTrue (is_group_doc image_frame.now.group.now)
        → IfOk result (λ gained. IsTrue (is_image_doc gained.image)) }
    ensures cacheable { IsTrue (is_group_doc image_frame.now.group.now)
        → IfOk result (λ gained. IsTrue (is_cache_doc gained.cached)) }
{
    named(image_frame.name);
    let gathered = export_group(alloc, world, frame, previous, image_frame.group.as_slice())?;
    let digests = put_trees(
        alloc,
        world,
        frame,
        &gathered.slices,
        gathered.processes.as_slice(),
    )?;
    let gained = assemble(alloc, image_frame, gathered, &digests)?;
    Ok(gained)
}

fn gain<W: World>(
    alloc: Global,
    world: &mut W,
    frame: &ExportFrame,
    group: &GroupDoc,
    analyzed: &Analyzed,
) -> Result<Gained, ExportFault>
    requires { KeepsLimits frame.now }
    ensures step { gains frame.now group.now analyzed.now (seen W.World world.old) result (seen W.World world.new) }
    ensures readable { IsTrue (is_group_doc group.now) → IfOk result (λ gained. IsTrue (is_image_doc gained.image)) }
    ensures cacheable { IsTrue (is_group_doc group.now) → IfOk result (λ gained. IsTrue (is_cache_doc gained.cached)) }
{
    let run = read_run_image(alloc, world, &frame.store, &analyzed.run)?;
    let previous = read_previous(alloc, world, &frame.store, &analyzed.previous)?;
    let image_frame = ImageFrame {
        name: &analyzed.run,
        run: &run,
        group,
    };
    gain_over(alloc, world, frame, &image_frame, previous.as_slice())
}

// The folder of a layer's contents.
fn folder_of(alloc: Global, layers: &Path, row: &LayerRow) -> Result<Path, Memory>
    requires { length layers.now ≤ 4096 }
    ensures path { IfOk result (λ path. path ≡ folder_of layers.now row.now) }
    ensures short { IfOk result IsShort }
{
    let folder = layers_folder(alloc, layers, &row.id)?;
    contents_folder(alloc, &folder, &row.layer)
}

// The folders of the layers that go into caches.
fn cached_folders(alloc: Global, layers: &Path, cached: &[LayerRow]) -> Result<List<Path>, Memory>
    requires { length layers.now ≤ 4096 }
    ensures folders { IfOk result (λ folders. folders ≡ map (folder_of layers.now) cached.now) }
    ensures short { IfOk result (AllByRecursion IsShort) }
{
    let mut folders = List::new(alloc);
    for row in cached {
        folders.push(folder_of(alloc, layers, row)?)?;
    }
    Ok(folders)
}

/// Exports an image: what the buildpacks of a group left, the application and the launcher. Trees go into the store and
/// into the caches that stand; no image document is written. Trees that were put stay after a refusal (platform.md,
/// "exporter"). Nothing of a layer's tree is held: the folders of layers with `cache` are walked once more at the end,
/// for the caches, and one that was changed meanwhile is refused. Where no `launch.toml` has `slices`, nothing of the
/// application is held; else it is held whole, and then the trees that it is cut into (buildpack.md,
/// "launch.toml (TOML)"). The folders of the frame have at most 4,096 bytes.
pub fn export<W: World>(
    alloc: Global,
    world: &mut W,
    caches: &mut Caches,
    frame: &ExportFrame,
    group: &GroupDoc,
    analyzed: &Analyzed,
) -> Result<Exported, ExportFault>
    requires limits { KeepsLimits frame.now }
    ensures steps { exports (is_group_doc group.now) frame.now group.now analyzed.now
        (world_and_caches (seen W.World world.old) (caches_seen ⟦<dyn Shelf as Shelf>⟧ caches.old))
        result
        (world_and_caches (seen W.World world.new) (caches_seen ⟦<dyn Shelf as Shelf>⟧ caches.new)) }
    ensures one_image { IsOneImage (is_group_doc group.now) frame.now group.now analyzed.now (W.tree world.old) result }
    ensures readable { IsTrue (is_group_doc group.now)
        → IfOk result (λ exported. IsTrue (is_image_doc exported.image)) }
{
    let gained = gain(alloc, world, frame, group, analyzed)?;
    let folders = cached_folders(alloc, &frame.layers, gained.cached.as_slice())?;
    let gone = store_all(
        alloc,
        world,
        &mut caches.shelves,
        &mut caches.places,
        &gained.cached,
        &folders,
    )?;
    Ok(Exported {
        image: gained.image,
        rows: gained.rows,
        gone,
    })
}
