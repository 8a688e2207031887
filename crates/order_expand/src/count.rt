// How many groups an order stands for, and how long they are, without listing them.
ghost use Rattle.std.specs.Prelude.{◌≡◌, ◌++◌, [], ℕ, List, suc, length, map, if◌then◌else◌, IfOk};
ghost use Rattle.std.specs.List.{flat_map};
ghost use Rattle.bp_docs.specs.declared.descriptor.Entry.{Entry};
ghost use Rattle.order_expand.specs.declared.member.Member.{Member};
ghost use Rattle.order_expand.specs.Check.{order_of_body};
ghost use Rattle.order_expand.specs.Groups.{named, raw_groups, expanded, in_front_of};
ghost use Rattle.order_expand.specs.Sizes.{size_of, sizes_at};

use crate::catalog::Catalog;
use crate::size::{Size, of_none, of_one};
use crate::table::at;
use bp_docs::{Body, Entry};
use cnb_world::{List, Memory};
use std::alloc::Global;

/// The size of the groups behind a composite with each of its own groups in front, and where it is optional, with none
/// of them last.
fn with_composite(fronts: Size, optional: bool, behind: Size) -> Size
    ensures { (front_groups : List (List Member)) → (groups : List (List Member)) → fronts ≡ size_of front_groups
        → behind ≡ size_of groups → result
        ≡ size_of (flat_map (λ front. map (λ group. front ++ group) groups) front_groups
        ++ (if optional then groups else [])) }
{
    let joined = fronts.times(behind);
    if optional {
        joined.plus(behind)
    } else {
        joined
    }
}

/// The size of the groups of an entry and of those behind it.
fn in_front(catalog: &Catalog, below: &[Size], entry: &Entry, behind: Size) -> Size
    requires { length below.now ≡ length catalog.now }
    ensures { (levels : ℕ) → (groups : List (List Member)) → below.now ≡ sizes_at levels catalog.now
        → behind ≡ size_of groups → result
        ≡ size_of (in_front_of (raw_groups levels catalog.now) entry.now (named catalog.now entry.now) groups) }
{
    match catalog.named(entry) {
        None => of_none(),
        Some(found) => match &found.descriptor.body {
            Body::Component { .. } => behind.with_member(),
            Body::Composite(_) => {
                let fronts = at(below, found.place);
                with_composite(fronts, entry.optional, behind)
            },
            Body::Foreign(_) => of_none(),
        },
    }
}

/// The size of the groups that one group of an order stands for.
fn of_group(catalog: &Catalog, below: &[Size], entries: &[Entry]) -> Size
    requires { length below.now ≡ length catalog.now }
    ensures { (levels : ℕ) → below.now ≡ sizes_at levels catalog.now
        → result ≡ size_of (expanded (raw_groups levels catalog.now) catalog.now entries.now) }
{
    let mut size = of_one();
    let mut place = entries.len();
    while place > 0 {
        place -= 1;
        size = in_front(catalog, below, &entries[place], size);
    }
    size
}

/// The size of the groups that an order stands for.
#[tactic(auto, using(crate::proofs::Levels::raw_groups_suc))]
pub(crate) fn of_order(catalog: &Catalog, below: &[Size], order: &[List<Entry>]) -> Size
    requires { length below.now ≡ length catalog.now }
    ensures { (levels : ℕ) → below.now ≡ sizes_at levels catalog.now
        → result ≡ size_of (raw_groups (suc levels) catalog.now order.now) }
{
    let mut size = of_none();
    for group in order {
        size = size.plus(of_group(catalog, below, group.as_slice()));
    }
    size
}

/// The size of the groups that a descriptor's own order stands for.
#[tactic(auto, using(crate::proofs::Levels::raw_groups_of_none))]
fn of_body(catalog: &Catalog, below: &[Size], body: &Body) -> Size
    requires { length below.now ≡ length catalog.now }
    ensures { (levels : ℕ) → below.now ≡ sizes_at levels catalog.now
        → result ≡ size_of (raw_groups (suc levels) catalog.now (order_of_body body.now)) }
{
    match body {
        Body::Composite(order) => of_order(catalog, below, order.as_slice()),
        Body::Component { .. } => of_none(),
        Body::Foreign(_) => of_none(),
    }
}

/// The sizes down to one level more.
fn level_above(alloc: Global, catalog: &Catalog, below: &[Size]) -> Result<Vec<Size>, Memory>
    requires { length below.now ≡ length catalog.now }
    ensures above { IfOk result (λ above. (levels : ℕ) → below.now ≡ sizes_at levels catalog.now
        → above.items ≡ sizes_at (suc levels) catalog.now) }
    ensures length { IfOk result (λ above. length above.items ≡ length catalog.now) }
{
    let mut above = Vec::new(alloc);
    for descriptor in catalog.descriptors() {
        above.push(of_body(catalog, below, &descriptor.body))?;
    }
    Ok(above)
}

/// The sizes down to no level.
fn level_zero(alloc: Global, catalog: &Catalog) -> Result<Vec<Size>, Memory>
    ensures { IfOk result (λ sizes. sizes.items ≡ sizes_at 0 catalog.now) }
{
    let mut sizes = Vec::new(alloc);
    for _ in catalog.descriptors() {
        sizes.push(of_none())?;
    }
    Ok(sizes)
}

/// For each descriptor the size of its own order's groups, down to a number of levels.
pub(crate) fn sizes(alloc: Global, catalog: &Catalog, levels: u32) -> Result<Vec<Size>, Memory>
    ensures { IfOk result (λ sizes. sizes.items ≡ sizes_at levels catalog.now) }
{
    let mut sizes = level_zero(alloc, catalog)?;
    for _ in 0..levels {
        sizes = level_above(alloc, catalog, sizes.as_slice())?;
    }
    Ok(sizes)
}
