// What the values and tables of a document are read as.
ghost use Rattle.std.specs.Prelude.{◌≡◌};
ghost use Rattle.std.specs.Fmt.{decimal};
ghost use Rattle.toml.specs.View.{view, table_view, array_view};
ghost use Rattle.cnb_toml.specs.Reading.{Answers, IsFault, fault_under, under};
ghost use Rattle.cnb_toml.specs.Form.{table_of, items_in, list_of};

use crate::fault::DocFault;
use cnb_world::List;
use std::alloc::Global;
use std::marker::PhantomData;
use toml::value::Array;
use toml::{Table, Value};

/// A kind of value in a document, and how it is read.
pub trait Form {
    ghost use Rattle.cnb_toml.specs.Form.{Form as FormOf};

    type Value: Drop;

    ghost value_of: { FormOf Self.Value };

    /// Reads a value. The path of a fault begins at the value: it is empty where the value itself is at fault.
    fn read(alloc: Global, value: &Value) -> Result<Self::Value, DocFault>
        ensures { Answers result (value_of (view value.now)) };
}

/// A kind of table in a document, and how it is read.
pub trait TableForm {
    ghost use Rattle.cnb_toml.specs.Form.{TableForm as TableFormOf};

    type Value: Drop;

    ghost value_in: { TableFormOf Self.Value };

    /// Reads a table; the path of a fault begins at the table's own keys.
    fn read(alloc: Global, table: &Table) -> Result<Self::Value, DocFault>
        ensures { Answers result (value_in (table_view table.now)) };
}

/// The tables of a kind, as values.
pub struct TableOf<F>(PhantomData<F>);

impl<F: TableForm> Form for TableOf<F> {
    type Value = F::Value;

    ghost value_of = { table_of F.value_in };

    fn read(alloc: Global, value: &Value) -> Result<F::Value, DocFault> {
        match value.as_table() {
            Some(table) => F::read(alloc, table),
            None => Err(DocFault::wrong(alloc)),
        }
    }
}

/// The lists of values of a kind, as values.
pub struct ListOf<F>(PhantomData<F>);

impl<F: Form> Form for ListOf<F> {
    type Value = List<F::Value>;

    ghost value_of = { list_of F.value_of };

    fn read(alloc: Global, value: &Value) -> Result<List<F::Value>, DocFault> {
        list_of::<F>(alloc, value)
    }
}

fn item<F: Form>(alloc: Global, place: usize, value: &Value) -> Result<F::Value, DocFault>
    ensures { Answers result (under (decimal place) (F.value_of (view value.now))) }
{
    match F::read(alloc, value) {
        Ok(item) => Ok(item),
        Err(fault) => Err(at_place(alloc, place, fault)),
    }
}

pub(crate) fn at_place(alloc: Global, place: usize, fault: DocFault) -> DocFault
    ensures { IsFault result (fault_under (decimal place) fault) }
{
    match format!(in alloc; "{place}") {
        Ok(key) => fault.under(alloc, key.as_str()),
        Err(_) => DocFault::Memory,
    }
}

fn items<F: Form>(alloc: Global, values: &Array) -> Result<List<F::Value>, DocFault>
    ensures { Answers result (items_in F.value_of 0 (array_view values.now)) }
{
    let mut items = List::new(alloc);
    for (place, value) in values.iter().enumerate() {
        items.push(item::<F>(alloc, place, value)?)?;
    }
    Ok(items)
}

/// Reads a list of values of a kind.
pub fn list_of<F: Form>(alloc: Global, value: &Value) -> Result<List<F::Value>, DocFault>
    ensures { Answers result (list_of F.value_of (view value.now)) }
{
    match value.as_array() {
        Some(values) => items::<F>(alloc, values),
        None => Err(DocFault::wrong(alloc)),
    }
}
