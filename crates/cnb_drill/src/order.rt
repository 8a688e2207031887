// The order: one group, of a composite for each column and the last component.
ghost use Rattle.std.specs.Prelude.{◌≡◌, IfOk};
ghost use Rattle.cnb_drill.specs.Buildpacks.{entry_of};
ghost use Rattle.cnb_drill.specs.Order.{composite_entries, drill_group, drill_order};

use crate::keys::{composite_key, tail_key};
use bp_docs::{Entry, Order};
use cnb_toml::Key;
use cnb_world::{List, Memory};
use std::alloc::Global;

/// A required entry that names the one buildpack of this id.
pub(crate) fn entry(key: Key) -> Entry
    ensures { result ≡ entry_of key }
{
    let Key { id, version: _ } = key;
    Entry {
        id,
        version: None,
        optional: false,
    }
}

/// The composites of the four columns.
fn composites(alloc: Global) -> Result<List<Entry>, Memory>
    ensures { IfOk result (λ entries. entries ≡ composite_entries) }
{
    let mut entries = List::new(alloc);
    for column in 0..4u8 {
        let key = composite_key(alloc, column)?;
        entries.push(entry(key))?;
    }
    Ok(entries)
}

/// The order's one group: the composites, and the last component.
fn group(alloc: Global) -> Result<List<Entry>, Memory>
    ensures { IfOk result (λ group. group ≡ drill_group) }
{
    let mut group = composites(alloc)?;
    let key = tail_key(alloc)?;
    group.push(entry(key))?;
    Ok(group)
}

#[tactic(auto, unfolding(crate::specs::Order::drill_order))]
pub(crate) fn order(alloc: Global) -> Result<Order, Memory>
    ensures { IfOk result (λ order. order ≡ drill_order) }
{
    let group = group(alloc)?;
    let mut order = List::new(alloc);
    order.push(group)?;
    Ok(order)
}
