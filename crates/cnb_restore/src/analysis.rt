// What the run image and the previous image are.
ghost use Rattle.std.specs.Prelude.{◌≤◌, IfOk, IsTrue, length};
ghost use Rattle.std.specs.Option.{option_copied};
ghost use Rattle.image_docs.specs.Analyzed.{is_analyzed};
ghost use Rattle.steps.specs.Outside.{seen};
ghost use Rattle.cnb_restore.specs.Analyzes.{analyzes};

use crate::fault::RestoreFault;
use crate::images::{known_previous, read_run_image};
use cnb_toml::ImageName;
use cnb_world::{Path, World};
use image_docs::Analyzed;
use std::alloc::Global;

/// Looks at the run image, which must be there, and at the previous image, which is none where it isn't there
/// (platform.md, "analyzer").
pub fn analyze<W: World>(
    alloc: Global,
    world: &mut W,
    store: &Path,
    run: &ImageName,
    previous: Option<&ImageName>,
) -> Result<Analyzed, RestoreFault>
    requires { length store.now ≤ 4096 }
    ensures steps { analyzes store.now run.now (option_copied previous.entry)
        (seen W.World world.old) result (seen W.World world.new) }
    ensures named { IfOk result (λ analyzed. IsTrue (is_analyzed analyzed)) }
{
    let image = read_run_image(alloc, world, store, run)?;
    let known = known_previous(alloc, world, store, previous)?;
    let run = run.copy(alloc)?;
    Ok(Analyzed {
        run,
        os: image.os,
        arch: image.arch,
        previous: known,
    })
}
