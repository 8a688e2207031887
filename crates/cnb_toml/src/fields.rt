// The keys of a table.
ghost use Rattle.std.specs.Prelude.{◌≡◌, option_map};
ghost use Rattle.toml.specs.Data.{get_member};
ghost use Rattle.toml.specs.View.{view, table_view};
ghost use Rattle.cnb_toml.specs.Reading.{Answers};
ghost use Rattle.cnb_toml.specs.Fields.{required_at, value_or, optional_at, truth_at, list_at, filled_list_at};

use crate::fault::{DocFault, under};
use crate::form::{Form, list_of};
use cnb_world::List;
use std::alloc::Global;
use toml::{Table, Value};

fn member<'a>(table: &'a Table, key: &str) -> Option<&'a Value>
    ensures { option_map (λ value. view value.now) result ≡ get_member key.now (table_view table.now) }
{
    table.get(key)
}

/// The value at a key that must be there.
pub fn required_at<F: Form>(alloc: Global, table: &Table, key: &str) -> Result<F::Value, DocFault>
    ensures { Answers result (required_at F.value_of key.now (table_view table.now)) }
{
    match member(table, key) {
        Some(value) => under(alloc, key, F::read(alloc, value)),
        None => Err(DocFault::missing(alloc, key)),
    }
}

/// The value at a key, or another one where the key isn't there.
pub fn value_or<F: Form>(
    alloc: Global,
    table: &Table,
    key: &str,
    absent: F::Value,
) -> Result<F::Value, DocFault>
    ensures { Answers result (value_or absent F.value_of key.now (table_view table.now)) }
{
    match member(table, key) {
        Some(value) => under(alloc, key, F::read(alloc, value)),
        None => Ok(absent),
    }
}

/// The value at a key that may be left out.
pub fn optional_at<F: Form>(
    alloc: Global,
    table: &Table,
    key: &str,
) -> Result<Option<F::Value>, DocFault>
    ensures { Answers result (optional_at F.value_of key.now (table_view table.now)) }
{
    match member(table, key) {
        Some(value) => Ok(Some(under(alloc, key, F::read(alloc, value))?)),
        None => Ok(None),
    }
}

/// The truth value at a key, `false` where the key isn't there.
pub fn truth_at(alloc: Global, table: &Table, key: &str) -> Result<bool, DocFault>
    ensures { Answers result (truth_at key.now (table_view table.now)) }
{
    value_or::<bool>(alloc, table, key, false)
}

/// The list at a key, which is empty where the key isn't there.
pub fn list_at<F: Form>(alloc: Global, table: &Table, key: &str) -> Result<List<F::Value>, DocFault>
    ensures { Answers result (list_at F.value_of key.now (table_view table.now)) }
{
    match member(table, key) {
        Some(value) => under(alloc, key, list_of::<F>(alloc, value)),
        None => Ok(List::new(alloc)),
    }
}

/// The list at a key, which must have an item.
pub fn filled_list_at<F: Form>(
    alloc: Global,
    table: &Table,
    key: &str,
) -> Result<List<F::Value>, DocFault>
    ensures { Answers result (filled_list_at F.value_of key.now (table_view table.now)) }
{
    let list = list_at::<F>(alloc, table, key)?;
    match list.as_slice() {
        [] => Err(DocFault::wrong(alloc).under(alloc, key)),
        [..] => Ok(list),
    }
}
