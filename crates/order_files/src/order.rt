// The order of an order file.
ghost use Rattle.std.specs.Prelude.{ℕ, IfErr, IfSome};
ghost use Rattle.std.specs.Option.{option_map};
ghost use Rattle.cnb_world.specs.Calls.{MayMisuse};
ghost use Rattle.steps.specs.Causes.{CountsFiles, IsAnswer};
ghost use Rattle.steps.specs.Outside.{seen};
ghost use Rattle.steps.specs.Reading.{LeavesUnchanged};
ghost use Rattle.doc_files.specs.Faults.{read_cause};
ghost use Rattle.doc_files.specs.Reading.{BlamesOnly};
ghost use Rattle.order_files.specs.OrderFile.{is_fit_order_file, order_file_in, order_of};

use bp_docs::{Order, read_order};
use cnb_toml::DocFault;
use cnb_world::{Bytes, Path, World};
use doc_files::{ReadFault, read_at, read_document};
use std::alloc::Global;

// The order that a document is.
fn order_of(alloc: Global, path: &Path, found: Option<Bytes>) -> Result<Order, ReadFault>
    ensures reads { IsAnswer read_cause result (order_of path.now found) }
    ensures blames { IfErr result (BlamesOnly path.now) }
    ensures files { (n : ℕ) → CountsFiles read_cause result n n }
{
    match found {
        Some(bytes) => {
            let order = read_at(alloc, path, read_order(alloc, bytes.as_slice()))?;
            Ok(order)
        }
        None => Err(ReadFault::Document(path.copy(alloc)?, DocFault::Absent)),
    }
}

/// The order of an order file (platform.md, "order.toml (TOML)"), which must be there.
pub fn read_order_file<W: World>(
    alloc: Global,
    world: &mut W,
    path: &Path,
) -> Result<Order, ReadFault>
    ensures reads { IfSome (W.tree world.old) (λ files. IsAnswer read_cause result (order_file_in path.now files)) }
    ensures blames { IfErr result (BlamesOnly path.now) }
    ensures leaves { LeavesUnchanged read_cause result (seen W.World world.old) (seen W.World world.new) }
    ensures misused { MayMisuse (option_map (is_fit_order_file path.now) (W.tree world.old))
        (W.misused world.old) (W.misused world.new) }
{
    let found = read_document(alloc, world, path)?;
    let order = order_of(alloc, path, found)?;
    Ok(order)
}
