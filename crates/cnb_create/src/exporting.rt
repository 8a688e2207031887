// The export of the image, and its document.
ghost use Rattle.std.specs.Prelude.{IfOk, IsTrue};
ghost use Rattle.cnb_layers.specs.Refusals as exporting;
ghost use Rattle.cnb_words.specs.Create.{KeepsLimits};
ghost use Rattle.image_docs.specs.Image.{is_image_doc};
ghost use Rattle.run_docs.specs.Group.{is_group_doc};
ghost use Rattle.shelf_set.specs.Caches.{caches_seen, world_and_caches};
ghost use Rattle.steps.specs.Outside.{seen};
ghost use Rattle.steps.specs.Steps.{map_err};
ghost use Rattle.cnb_create.specs.Creates.{exports_image, leaves_image};
ghost use Rattle.cnb_create.specs.declared.refusal.CreateRefusal.TheVariants as refused;

use crate::phases::Phases;
use crate::refusal::CreateRefusal;
use crate::report::created_text;
use cnb_export::{Exported, export, save_image};
use cnb_layers::{ExportFault, ExportFrame};
use cnb_words::CreateWords;
use cnb_world::{Shelf, Text, World};
use image_docs::ImageDoc;
use shelf_set::Caches;
use std::alloc::Global;

fn export_image<W: World>(
    alloc: Global,
    options: &CreateWords,
    world: &mut W,
    caches: &mut Caches,
    phases: &Phases,
) -> Result<Exported, ExportFault>
    requires limits { KeepsLimits options.now }
    ensures steps { exports_image (is_group_doc phases.now.group) options.now phases.now.analyzed phases.now.group
        (world_and_caches (seen W.World world.old) (caches_seen ⟦<dyn Shelf as Shelf>⟧ caches.old)) result
        (world_and_caches (seen W.World world.new) (caches_seen ⟦<dyn Shelf as Shelf>⟧ caches.new)) }
    ensures readable { IsTrue (is_group_doc phases.now.group)
        → IfOk result (λ exported. IsTrue (is_image_doc exported.image)) }
{
    let frame = ExportFrame::new(
        alloc,
        &options.store,
        &options.layers,
        &options.detect.app,
        &options.launcher,
    )?;
    let exported = export(
        alloc,
        world,
        caches,
        &frame,
        &phases.group,
        &phases.analyzed,
    )?;
    Ok(exported)
}

/// Exports the image, makes the text to be printed, and then writes the image's document.
pub(crate) fn leave_image<W: World>(
    alloc: Global,
    options: &CreateWords,
    world: &mut W,
    caches: &mut Caches,
    phases: &Phases,
) -> Result<Text, CreateRefusal>
    requires limits { KeepsLimits options.now }
    requires group { IsTrue (is_group_doc phases.now.group) }
    ensures steps { leaves_image options.now phases.now
        (world_and_caches (seen W.World world.old) (caches_seen ⟦<dyn Shelf as Shelf>⟧ caches.old)) result
        (world_and_caches (seen W.World world.new) (caches_seen ⟦<dyn Shelf as Shelf>⟧ caches.new)) }
{
    let exported = export_image(alloc, options, world, caches, phases)?;
    let text = created_text(alloc, &options.image, phases, &exported)?;
    save_image(
        alloc,
        world,
        &options.store,
        &options.image,
        &exported.image,
    )?;
    Ok(text)
}
