// The target of the run image that was analyzed.
ghost use Rattle.std.specs.Prelude.{◌≡◌, IfOk};
ghost use Rattle.image_files.specs.Target.{target_of};

use cnb_toml::Target;
use cnb_world::Memory;
use image_docs::Analyzed;
use std::alloc::Global;

/// The operating system and the architecture of the run image that was analyzed.
pub(crate) fn target_of(alloc: Global, analyzed: &Analyzed) -> Result<Target, Memory>
    ensures { IfOk result (λ target. target ≡ target_of analyzed.now) }
{
    let os = analyzed.os.copy(alloc)?;
    let arch = analyzed.arch.copy(alloc)?;
    Ok(Target { os, arch })
}
