// Orders from their documents.
ghost use Rattle.std.specs.Prelude.{◌≡◌};
ghost use Rattle.toml.specs.View.{table_view};
ghost use Rattle.cnb_toml.specs.Reading.{Answers};
ghost use Rattle.bp_docs.specs.Order.{version_or_none, optional_version_of, entry_in, group_in, order_at, order_in};

use crate::descriptor::{Entry, Order};
use cnb_toml::{
    BpId, BpVersion, Doc, DocFault, Form, TableForm, TableOf, filled_list_at, list_at, of_name,
    required_at, truth_at, value_or,
};
use cnb_world::List;
use std::alloc::Global;
use toml::{Table, Value};

fn version_or_none(alloc: Global, text: &str) -> Result<Option<BpVersion>, DocFault>
    ensures { Answers result (version_or_none text.now) }
{
    if text.is_empty() {
        return Ok(None);
    }
    let version = of_name(alloc, BpVersion::parse(alloc, text))?;
    Ok(Some(version))
}

/// A version, where an empty text is none.
struct OptionalVersion;

impl Form for OptionalVersion {
    type Value = Option<BpVersion>;

    ghost value_of = { optional_version_of };

    fn read(alloc: Global, value: &Value) -> Result<Option<BpVersion>, DocFault> {
        match value.as_str() {
            Some(text) => version_or_none(alloc, text),
            None => Err(DocFault::wrong(alloc)),
        }
    }
}

impl TableForm for Entry {
    type Value = Entry;

    ghost value_in = { entry_in };

    fn read(alloc: Global, table: &Table) -> Result<Entry, DocFault> {
        let id = required_at::<BpId>(alloc, table, "id")?;
        let version = value_or::<OptionalVersion>(alloc, table, "version", None)?;
        let optional = truth_at(alloc, table, "optional")?;
        Ok(Entry {
            id,
            version,
            optional,
        })
    }
}

/// A group, which has an entry.
struct FilledGroup;

impl TableForm for FilledGroup {
    type Value = List<Entry>;

    ghost value_in = { group_in };

    fn read(alloc: Global, table: &Table) -> Result<List<Entry>, DocFault> {
        filled_list_at::<TableOf<Entry>>(alloc, table, "group")
    }
}

/// The groups of a table.
pub(crate) fn order_at(alloc: Global, table: &Table) -> Result<Order, DocFault>
    ensures { Answers result (order_at (table_view table.now)) }
{
    list_at::<TableOf<FilledGroup>>(alloc, table, "order")
}

/// Reads an order file (platform.md, "order.toml (TOML)"). The first fault in the order of keys and lists is answered,
/// as `order.0.group.1.id`.
#[tactic(auto, unfolding(crate::specs::Order::order_in))]
pub fn read_order(alloc: Global, bytes: &[u8]) -> Result<Order, DocFault>
    ensures { Answers result (order_in bytes.now) }
{
    let doc = Doc::read(alloc, bytes)?;
    order_at(alloc, doc.table())
}
