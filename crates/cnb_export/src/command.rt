// The command `export`.
ghost use Rattle.std.specs.Prelude.{◌≤◌, IsTrue, OnOk, length};
ghost use Rattle.cnb_words.specs.Export as words;
ghost use Rattle.image_docs.specs.Image.{is_image_doc};
ghost use Rattle.image_files.specs.Images.{ImageStands};
ghost use Rattle.run_docs.specs.Group.{is_group_doc};
ghost use Rattle.shelf_set.specs.Caches as seen_caches;
ghost use Rattle.shelf_set.specs.Caches.{caches_seen, world_and_caches};
ghost use Rattle.steps.specs.Outside.{seen};
ghost use Rattle.cnb_export.specs.Command.{exports_command, exports_given, finishes_export, saves_image};
ghost use Rattle.cnb_layers.specs.Frame as frames;

use crate::exported::Exported;
use crate::exporting::export;
use crate::given::{ExportGiven, read_given};
use crate::refusal::ExportRefusal;
use crate::report::exported_text;
use cnb_layers::ExportFault;
use cnb_toml::ImageName;
use cnb_words::ExportWords;
use cnb_world::{Path, Shelf, Text, World};
use image_docs::ImageDoc;
use shelf_set::Caches;
use std::alloc::Global;

/// Writes the image's document into a file of the store.
pub fn save_image<W: World>(
    alloc: Global,
    world: &mut W,
    store: &Path,
    name: &ImageName,
    image: &ImageDoc,
) -> Result<(), ExportFault>
    requires { length store.now ≤ 4096 }
    ensures step { saves_image store.now name.now image.now (seen W.World world.old) result (seen W.World world.new) }
{
    image_files::save_image(alloc, world, store, name, image)?;
    Ok(())
}

// Makes the text to be printed, and then writes the image's document.
fn finish_export<W: World>(
    alloc: Global,
    options: &ExportWords,
    world: &mut W,
    exported: &Exported,
) -> Result<Text, ExportRefusal>
    requires limits { words.KeepsLimits options.now }
    requires readable { IsTrue (is_image_doc exported.now.image) }
    ensures steps { (caches : seen_caches.Caches) → finishes_export options.now exported.now
        (world_and_caches (seen W.World world.old) caches) result (world_and_caches (seen W.World world.new) caches) }
{
    let text = exported_text(alloc, &options.image, exported)?;
    save_image(
        alloc,
        world,
        &options.store,
        &options.image,
        &exported.image,
    )?;
    Ok(text)
}

// Exports what was read, and finishes the export.
fn export_given<W: World>(
    alloc: Global,
    options: &ExportWords,
    world: &mut W,
    caches: &mut Caches,
    given: &ExportGiven,
) -> Result<Text, ExportRefusal>
    requires limits { words.KeepsLimits options.now }
    requires frame { frames.KeepsLimits given.now.frame }
    requires group { IsTrue (is_group_doc given.now.group) }
    ensures steps { exports_given options.now given.now
        (world_and_caches (seen W.World world.old) (caches_seen ⟦<dyn Shelf as Shelf>⟧ caches.old))
        result
        (world_and_caches (seen W.World world.new) (caches_seen ⟦<dyn Shelf as Shelf>⟧ caches.new)) }
{
    let exported = export(
        alloc,
        world,
        caches,
        &given.frame,
        &given.group,
        &given.analyzed,
    )?;
    finish_export(alloc, options, world, &exported)
}

/// Exports the image of the chosen group, and gives the text to be printed (platform.md, "exporter"). The image's
/// document is written last.
pub fn export_command<W: World>(
    alloc: Global,
    options: &ExportWords,
    world: &mut W,
    caches: &mut Caches,
) -> Result<Text, ExportRefusal>
    requires limits { words.KeepsLimits options.now }
    ensures steps { exports_command options.now
        (world_and_caches (seen W.World world.old) (caches_seen ⟦<dyn Shelf as Shelf>⟧ caches.old))
        result
        (world_and_caches (seen W.World world.new) (caches_seen ⟦<dyn Shelf as Shelf>⟧ caches.new)) }
    ensures stands { OnOk result (ImageStands options.now.store options.now.image (W.tree world.new)) }
{
    let given = read_given(alloc, world, options)?;
    export_given(alloc, options, world, caches, &given)
}
