// Names in ascending order.
ghost use Rattle.std.specs.Prelude.{◌≡◌, IfOk, map};
ghost use Rattle.cnb_toml.specs.Ascending.{ascending};

use cnb_world::Memory;
use std::alloc::Global;
use std::collections::BTreeSet;

/// Names in ascending order, each once.
pub fn ascending<'a>(alloc: Global, mut names: Vec<&'a str>) -> Result<Vec<&'a str>, Memory>
    ensures { IfOk result (λ sorted. map (λ name. name.now) sorted.items
        ≡ ascending (map (λ name. name.now) names.entry.items)) }
{
    let mut set = BTreeSet::new(alloc);
    while let Some(name) = names.pop() {
        set.insert(name)?;
    }
    Ok(set.into_iter().collect(alloc)?)
}
