// Lists of tables in which a table is read in view of those before it.
ghost use Rattle.std.specs.Prelude.{◌≡◌, List as Seq, []};
ghost use Rattle.std.specs.Fmt.{decimal};
ghost use Rattle.toml.specs.View.{view, table_view, array_view};
ghost use Rattle.cnb_toml.specs.Form.{table_of};
ghost use Rattle.cnb_toml.specs.Reading.{Answers, under};
ghost use Rattle.cnb_toml.specs.Rows.{rows_in, rows_of};

use crate::fault::DocFault;
use crate::form::{Form, at_place};
use cnb_world::{List, Memory};
use std::alloc::Global;
use std::marker::PhantomData;
use toml::value::Array;
use toml::{Table, Value};

/// A kind of table in a list, and how it is read behind others of its kind. What a row needs to know of those before
/// it is kept aside, so that no row looks through them again.
pub trait RowForm {
    ghost use Rattle.std.specs.Prelude.{List, [], ◌∷◌, ◌++◌, OnOk};
    ghost use Rattle.cnb_toml.specs.Rows.{RowForm as RowFormOf};

    type Value: Drop;

    /// What is kept of the rows before.
    type Seen: Drop;

    ghost row_in: { RowFormOf Self.Value };

    ghost keeps: { List Self.Value → Self.Seen → Type 0 };

    fn none_seen(alloc: Global) -> Self::Seen
        ensures { keeps [] result };

    /// Reads a table behind those that were read before it; the path of a fault begins at the table's own keys.
    fn read(alloc: Global, seen: &Self::Seen, table: &Table) -> Result<Self::Value, DocFault>
        ensures { (before : List Self.Value) → keeps before seen.now
            → Answers result (row_in before (table_view table.now)) };

    /// Keeps what the rows after this one need to know of it.
    fn see(alloc: Global, seen: &mut Self::Seen, row: &Self::Value) -> Result<(), Memory>
        ensures { OnOk result ((before : List Self.Value) → keeps before seen.old
            → keeps (before ++ row.now ∷ []) seen.new) };
}

/// The lists of tables of a kind, as values.
pub struct RowsOf<F>(PhantomData<F>);

impl<F: RowForm> Form for RowsOf<F> {
    type Value = List<F::Value>;

    ghost value_of = { rows_of F.row_in };

    fn read(alloc: Global, value: &Value) -> Result<List<F::Value>, DocFault> {
        match value.as_array() {
            Some(values) => rows::<F>(alloc, values),
            None => Err(DocFault::wrong(alloc)),
        }
    }
}

fn rows<F: RowForm>(alloc: Global, values: &Array) -> Result<List<F::Value>, DocFault>
    ensures { Answers result (rows_in F.row_in [] 0 (array_view values.now)) }
{
    let mut rows = List::new(alloc);
    let mut seen = F::none_seen(alloc);
    for (place, value) in values.iter().enumerate() {
        let next = row::<F>(alloc, &seen, place, value)?;
        F::see(alloc, &mut seen, &next)?;
        rows.push(next)?;
    }
    Ok(rows)
}

fn row<F: RowForm>(
    alloc: Global,
    seen: &F::Seen,
    place: usize,
    value: &Value,
) -> Result<F::Value, DocFault>
    ensures { (before : Seq F.Value) → F.keeps before seen.now
        → Answers result (under (decimal place) (table_of (F.row_in before) (view value.now))) }
{
    match row_table::<F>(alloc, seen, value) {
        Ok(row) => Ok(row),
        Err(fault) => Err(at_place(alloc, place, fault)),
    }
}

fn row_table<F: RowForm>(alloc: Global, seen: &F::Seen, value: &Value) -> Result<F::Value, DocFault>
    ensures { (before : Seq F.Value) → F.keeps before seen.now
        → Answers result (table_of (F.row_in before) (view value.now)) }
{
    match value.as_table() {
        Some(table) => F::read(alloc, seen, table),
        None => Err(DocFault::wrong(alloc)),
    }
}
