// The keys of the rows that were read before.
ghost use Rattle.std.specs.Prelude.{◌≡◌, ◌||◌, OnOk};
ghost use Rattle.std.specs.HashSet.{contains};

use cnb_world::Memory;
use std::collections::HashSet;
use std::hash::Hash;

/// Adds a row's key to those of the rows before.
pub fn see_key<K: Eq + Hash + Drop>(seen: &mut HashSet<K>, key: K) -> Result<(), Memory>
    ensures { OnOk result ((other : K) → contains K.eq seen.new other
        ≡ (K.eq key other || contains K.eq seen.old other)) }
{
    let _ = seen.insert(key)?;
    Ok(())
}
