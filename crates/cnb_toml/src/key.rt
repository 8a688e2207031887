// What tells one buildpack from another.
ghost use Rattle.std.specs.Prelude.{◌≡◌, IfOk};

use crate::names::Key;
use cnb_world::Memory;
use std::alloc::Global;

impl Key {
    pub fn copy(&self, alloc: Global) -> Result<Key, Memory>
        ensures { IfOk result (λ key. key ≡ self.now) }
    {
        let id = self.id.copy(alloc)?;
        let version = self.version.copy(alloc)?;
        Ok(Key { id, version })
    }
}
