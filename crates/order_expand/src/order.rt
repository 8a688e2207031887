// Whether an order can be expanded.
ghost use Rattle.std.specs.Prelude.{◌≡◌, ◌≤◌, All, IfOk, IsSome, OnOk, length};
ghost use Rattle.order_expand.specs.Check.{cause_of, checked, count_groups, deep_or_count, first_deep, met_entries};
ghost use Rattle.order_expand.specs.Groups.{named, listed_groups};
ghost use Rattle.steps.specs.Causes.{IsAnswer};

use crate::catalog::Catalog;
use crate::count::{of_order, sizes};
use crate::met::first_fault;
use crate::nesting::{deeper_in_order, nesting};
use bp_docs::Order;
use cnb_toml::BpId;
use cnb_world::{Memory, Text};
use std::alloc::Global;
use std::fmt;
use thiserror::Error;

/// How deep composites may nest.
const DEEPEST: u32 = 16;

/// How many groups an order may stand for.
const GROUPS: u32 = 4096;

/// How many members a group may have.
const MEMBERS: u32 = 256;

/// Why an order is refused: an entry means no buildpack, or several, or one of another Buildpack API; composites nest
/// too deep; there are too many groups; a group is too long.
#[derive(Drop, Error)]
pub enum OrderFault {
    #[error("no buildpack `{}`", .0.as_str())]
    Absent(BpId),
    #[error("several buildpacks `{}`", .0.as_str())]
    Ambiguous(BpId),
    #[error("`{}` is of Buildpack API {}", .0.as_str(), .1.as_str())]
    Api(BpId, Text),
    #[error("composites nest too deep below `{}`", .0.as_str())]
    Deep(BpId),
    #[error("too many groups")]
    ManyGroups,
    #[error("a group is too long")]
    LongGroup,
    #[error("out of memory")]
    Memory,
}

impl fmt::Debug for OrderFault {
    fn fmt<W: fmt::Write>(&self, f: &mut fmt::Formatter<W>) -> fmt::Result {
        fmt::Display::fmt(self, f)
    }
}

impl From<Memory> for OrderFault {
    ghost use Rattle.std.specs.Prelude.{◌≡◌};
    ghost use Rattle.order_expand.specs.declared.order.OrderFault.TheVariants.{Memory};

    ghost from_gives = { λ _ fault. fault ≡ Memory };

    fn from(_: Memory) -> Self {
        OrderFault::Memory
    }
}

/// The number of groups, where they are not too many and none is too long.
fn count(alloc: Global, order: &Order, catalog: &Catalog) -> Result<u32, OrderFault>
    ensures { IsAnswer cause_of result (count_groups catalog.now order.now) }
{
    let below = sizes(alloc, catalog, DEEPEST)?;
    let size = of_order(catalog, below.as_slice(), order.as_slice());
    if size.groups > GROUPS {
        return Err(OrderFault::ManyGroups);
    }
    if size.longest > MEMBERS {
        return Err(OrderFault::LongGroup);
    }
    Ok(size.groups)
}

/// The same, where no composites nest too deep.
fn deep_or_count(alloc: Global, order: &Order, catalog: &Catalog) -> Result<u32, OrderFault>
    ensures { IsAnswer cause_of result (deep_or_count catalog.now order.now (first_deep catalog.now order.now)) }
{
    let nests = nesting(alloc, catalog, DEEPEST)?;
    match deeper_in_order(catalog, nests.as_slice(), order.as_slice()) {
        Some(entry) => Err(OrderFault::Deep(entry.id.copy(alloc)?)),
        None => count(alloc, order, catalog),
    }
}

/// The number of listed groups. No group is listed for it: time and memory go by the sizes of the order and the
/// catalog, however many groups there are.
pub fn check(alloc: Global, order: &Order, catalog: &Catalog) -> Result<u32, OrderFault>
    ensures answer { IsAnswer cause_of result (checked catalog.now order.now) }
    ensures number { IfOk result (λ number. number ≡ length (listed_groups catalog.now order.now)) }
    ensures few { IfOk result (λ number. number ≤ 4096) }
    ensures named { OnOk result (All (λ entry. IsSome (named catalog.now entry)) (met_entries catalog.now order.now)) }
{
    match first_fault(alloc, order, catalog)? {
        Some(fault) => Err(fault),
        None => deep_or_count(alloc, order, catalog),
    }
}
