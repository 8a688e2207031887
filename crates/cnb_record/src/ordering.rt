// The order that a record is checked for.
ghost use Rattle.std.specs.Prelude.{◌≤◌, IfOk, IsOk, length};
ghost use Rattle.order_expand.specs.Check.{checked};
ghost use Rattle.steps.specs.Outside.{seen};
ghost use Rattle.cnb_record.specs.Checks.{reads_ordered};

use crate::refusal::CheckRefusal;
use bp_docs::Order;
use cnb_world::{Path, World};
use order_expand::{Catalog, check};
use order_files::{read_catalog, read_order_file};
use std::alloc::Global;

/// The order, and the buildpacks that it may name.
#[derive(Drop)]
pub struct Ordered {
    pub order: Order,
    pub catalog: Catalog,
}

/// Reads the order and the buildpacks, and refuses an order that can't be expanded.
pub(crate) fn read_ordered<W: World>(
    alloc: Global,
    world: &mut W,
    order: &Path,
    buildpacks: &Path,
) -> Result<Ordered, CheckRefusal>
    requires { length buildpacks.now ≤ 4096 }
    ensures step { reads_ordered order.now buildpacks.now (seen W.World world.old) result (seen W.World world.new) }
    ensures checked { IfOk result (λ ordered. IsOk (checked ordered.catalog ordered.order)) }
{
    let order = read_order_file(alloc, world, order)?;
    let catalog = read_catalog(alloc, world, buildpacks)?;
    check(alloc, &order, &catalog)?;
    Ok(Ordered { order, catalog })
}
