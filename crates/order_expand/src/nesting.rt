// How deep composites nest.
ghost use Rattle.std.specs.Prelude.{◌≡◌, ℕ, suc, length, nat_lt, IfOk};
ghost use Rattle.std.specs.List.{find};
ghost use Rattle.std.specs.Option.{option_copied};
ghost use Rattle.order_expand.specs.Check.{order_of_body, entries_of, nests_deeper};
ghost use Rattle.order_expand.specs.Nesting.{order_nests, nests_at};

use crate::catalog::Catalog;
use crate::table::at;
use bp_docs::{Body, Entry};
use cnb_world::{List, Memory};
use std::alloc::Global;

/// Whether an entry's composites nest deeper.
fn is_deeper(catalog: &Catalog, nests: &[bool], entry: &Entry) -> bool
    requires { length nests.now ≡ length catalog.now }
    ensures { (levels : ℕ) → nests.now ≡ nests_at levels catalog.now
        → result ≡ nests_deeper levels catalog.now entry.now }
{
    match catalog.named(entry) {
        Some(found) => at(nests, found.place),
        None => false,
    }
}

/// The first entry of a group whose composites nest deeper.
fn deeper_in_group<'a>(catalog: &Catalog, nests: &[bool], entries: &'a [Entry]) -> Option<&'a Entry>
    requires { length nests.now ≡ length catalog.now }
    ensures { (levels : ℕ) → nests.now ≡ nests_at levels catalog.now
        → option_copied result ≡ find (nests_deeper levels catalog.now) entries.now }
{
    for entry in entries {
        if is_deeper(catalog, nests, entry) {
            return Some(entry);
        }
    }
    None
}

/// The first entry of an order whose composites nest deeper.
pub(crate) fn deeper_in_order<'a>(
    catalog: &Catalog,
    nests: &[bool],
    order: &'a [List<Entry>],
) -> Option<&'a Entry>
    requires { length nests.now ≡ length catalog.now }
    ensures { (levels : ℕ) → nests.now ≡ nests_at levels catalog.now
        → option_copied result ≡ find (nests_deeper levels catalog.now) (entries_of order.now) }
{
    for group in order {
        if let Some(entry) = deeper_in_group(catalog, nests, group.as_slice()) {
            return Some(entry);
        }
    }
    None
}

/// Whether a composite nests deeper by one level more.
fn nests_above(catalog: &Catalog, nests: &[bool], body: &Body) -> bool
    requires { length nests.now ≡ length catalog.now }
    ensures { (levels : ℕ) → nests.now ≡ nests_at levels catalog.now
        → result ≡ order_nests (suc levels) catalog.now (order_of_body body.now) }
{
    match body {
        Body::Composite(order) => deeper_in_order(catalog, nests, order.as_slice()).is_some(),
        Body::Component { .. } => false,
        Body::Foreign(_) => false,
    }
}

fn has_groups(body: &Body) -> bool
    ensures { result ≡ nat_lt 0 (length (order_of_body body.now)) }
{
    match body {
        Body::Composite(order) => !order.as_slice().is_empty(),
        Body::Component { .. } => false,
        Body::Foreign(_) => false,
    }
}

/// Which descriptors nest deeper than no level.
fn level_zero(alloc: Global, catalog: &Catalog) -> Result<Vec<bool>, Memory>
    ensures { IfOk result (λ nests. nests.items ≡ nests_at 0 catalog.now) }
{
    let mut nests = Vec::new(alloc);
    for descriptor in catalog.descriptors() {
        nests.push(has_groups(&descriptor.body))?;
    }
    Ok(nests)
}

/// Which descriptors nest deeper by one level more.
fn level_above(alloc: Global, catalog: &Catalog, nests: &[bool]) -> Result<Vec<bool>, Memory>
    requires { length nests.now ≡ length catalog.now }
    ensures { IfOk result (λ above. (levels : ℕ) → nests.now ≡ nests_at levels catalog.now
        → above.items ≡ nests_at (suc levels) catalog.now) }
{
    let mut above = Vec::new(alloc);
    for descriptor in catalog.descriptors() {
        above.push(nests_above(catalog, nests, &descriptor.body))?;
    }
    Ok(above)
}

/// Which descriptors nest deeper than a number of levels.
pub(crate) fn nesting(alloc: Global, catalog: &Catalog, levels: u32) -> Result<Vec<bool>, Memory>
    ensures { IfOk result (λ nests. nests.items ≡ nests_at levels catalog.now) }
{
    let mut nests = level_zero(alloc, catalog)?;
    for _ in 0..levels {
        nests = level_above(alloc, catalog, nests.as_slice())?;
    }
    Ok(nests)
}
