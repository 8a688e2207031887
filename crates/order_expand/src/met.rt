// The entries of an order as they are met: behind an entry that names a composite for the first time come that
// composite's own.
ghost use Rattle.std.specs.Prelude.{◌≡◌, ◌++◌, ◌+◌, [], List, IfOk, OnOk, length};
ghost use Rattle.cnb_toml.specs.declared.names.Key.{Key};
ghost use Rattle.order_expand.specs.Check.{order_of_body, entries_of, entries_behind, with_met, first_fault};
ghost use Rattle.order_expand.specs.Check.{met_entries};
ghost use Rattle.order_expand.specs.Groups.{named};
ghost use Rattle.order_expand.specs.Met.{waiting_in, marks_of, unmet_count};

use crate::catalog::Catalog;
use crate::fault::entry_fault;
use crate::order::OrderFault;
use crate::table::at;
use bp_docs::{Body, Entry, Order};
use cnb_world::{List, Memory};
use std::alloc::Global;

/// Puts a group's entries in front of those that wait.
fn add_group<'a>(waiting: &mut Vec<&'a Entry>, entries: &'a [Entry]) -> Result<(), Memory>
    ensures { OnOk result (waiting_in waiting.new.items ≡ entries.now ++ waiting_in waiting.old.items) }
{
    let mut place = entries.len();
    while place > 0 {
        place -= 1;
        waiting.push(&entries[place])?;
    }
    Ok(())
}

/// Puts an order's entries in front of those that wait.
fn add_order<'a>(waiting: &mut Vec<&'a Entry>, order: &'a [List<Entry>]) -> Result<(), Memory>
    ensures { OnOk result (waiting_in waiting.new.items ≡ entries_of order.now ++ waiting_in waiting.old.items) }
{
    let mut place = order.len();
    while place > 0 {
        place -= 1;
        add_group(waiting, order[place].as_slice())?;
    }
    Ok(())
}

/// Puts the entries of a descriptor's own order in front of those that wait.
fn add_body<'a>(waiting: &mut Vec<&'a Entry>, body: &'a Body) -> Result<(), Memory>
    ensures { OnOk result (waiting_in waiting.new.items
        ≡ entries_of (order_of_body body.now) ++ waiting_in waiting.old.items) }
{
    match body {
        Body::Composite(order) => add_order(waiting, order.as_slice()),
        Body::Component { .. } => Ok(()),
        Body::Foreign(_) => Ok(()),
    }
}

/// Marks what an entry names as met, and where it was not, puts its own entries in front of those that wait.
fn meet<'a>(
    catalog: &'a Catalog,
    entry: &Entry,
    marks: &mut Vec<bool>,
    waiting: &mut Vec<&'a Entry>,
) -> Result<(), Memory>
    requires { length marks.old.items ≡ length catalog.now }
    ensures length { length marks.new.items ≡ length catalog.now }
    ensures marks { OnOk result ((met : List Key) → marks.old.items ≡ marks_of met catalog.now
        → marks.new.items ≡ marks_of (with_met met (named catalog.now entry.now)) catalog.now) }
    ensures waiting { OnOk result ((met : List Key) → marks.old.items ≡ marks_of met catalog.now
        → waiting_in waiting.new.items
        ≡ entries_behind met (named catalog.now entry.now) ++ waiting_in waiting.old.items) }
    ensures left { OnOk result (length waiting.new.items + unmet_count marks.new.items catalog.now
        ≡ length waiting.old.items + unmet_count marks.old.items catalog.now) }
{
    let Some(found) = catalog.named(entry) else {
        return Ok(());
    };
    if at(marks.as_slice(), found.place) {
        return Ok(());
    }
    marks[found.place] = true;
    add_body(waiting, &found.descriptor.body)?;
    Ok(())
}

/// No mark for each descriptor.
fn no_marks(alloc: Global, catalog: &Catalog) -> Result<Vec<bool>, Memory>
    ensures { IfOk result (λ marks. marks.items ≡ marks_of [] catalog.now) }
{
    let mut marks = Vec::new(alloc);
    for _ in catalog.descriptors() {
        marks.push(false)?;
    }
    Ok(marks)
}

/// The first fault of the entries of an order in the order in which they are met.
pub(crate) fn first_fault(
    alloc: Global,
    order: &Order,
    catalog: &Catalog,
) -> Result<Option<OrderFault>, Memory>
    ensures { IfOk result (λ fault. fault ≡ first_fault catalog.now (met_entries catalog.now order.now)) }
{
    let mut marks = no_marks(alloc, catalog)?;
    let mut waiting = Vec::new(alloc);
    add_order(&mut waiting, order.as_slice())?;
    while let Some(entry) = waiting.pop() {
        let fault = entry_fault(alloc, catalog, entry)?;
        if fault.is_some() {
            return Ok(fault);
        }
        meet(catalog, entry, &mut marks, &mut waiting)?;
    }
    Ok(None)
}
