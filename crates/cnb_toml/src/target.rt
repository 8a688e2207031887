// What an image is made for.
ghost use Rattle.std.specs.Prelude.{◌≡◌, IfOk};

use cnb_world::{Memory, Text};
use std::alloc::Global;

/// The operating system and the architecture that an image is for, as `linux` and `amd64` (platform.md, "Targets").
#[derive(Drop)]
pub struct Target {
    pub os: Text,
    pub arch: Text,
}

impl Target {
    pub fn copy(&self, alloc: Global) -> Result<Target, Memory>
        ensures { IfOk result (λ target. target ≡ self.now) }
    {
        let os = self.os.copy(alloc)?;
        let arch = self.arch.copy(alloc)?;
        Ok(Target { os, arch })
    }
}
