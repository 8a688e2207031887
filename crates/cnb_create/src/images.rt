// The run image and the previous image.
ghost use Rattle.std.specs.Prelude.{◌≡◌, IfOk, IsTrue};
ghost use Rattle.cnb_words.specs.Create.{KeepsLimits};
ghost use Rattle.image_docs.specs.Analyzed.{is_analyzed};
ghost use Rattle.steps.specs.Outside.{seen};
ghost use Rattle.steps.specs.Steps.{map_err};
ghost use Rattle.cnb_create.specs.Creates.{looks_at_images, previous_name};
ghost use Rattle.cnb_create.specs.declared.refusal.CreateRefusal.TheVariants as refused;

use crate::refusal::CreateRefusal;
use cnb_restore::{analyze, write_analyzed_document};
use cnb_toml::ImageName;
use cnb_words::CreateWords;
use cnb_world::World;
use image_docs::Analyzed;
use std::alloc::Global;

fn previous_name(options: &CreateWords) -> &ImageName
    ensures { result.now ≡ previous_name options.now }
{
    match &options.previous {
        Some(name) => name,
        None => &options.image,
    }
}

/// Looks at the run image and the previous image, and writes what they are into the work folder.
pub(crate) fn look_at_images<W: World>(
    alloc: Global,
    options: &CreateWords,
    world: &mut W,
) -> Result<Analyzed, CreateRefusal>
    requires { KeepsLimits options.now }
    ensures steps { map_err refused.Restore (looks_at_images options.now)
        (seen W.World world.old) result (seen W.World world.new) }
    ensures named { IfOk result (λ analyzed. IsTrue (is_analyzed analyzed)) }
{
    let previous = previous_name(options);
    let analyzed = analyze(alloc, world, &options.store, &options.run, Some(previous))?;
    write_analyzed_document(alloc, world, &options.detect.work, &analyzed)?;
    Ok(analyzed)
}
