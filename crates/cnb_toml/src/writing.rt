// What is put into a table that is to be written.
ghost use Rattle.std.specs.Prelude.{codes, ◌≡◌, IfSome, OnOk, IsTrue};
ghost use Rattle.toml.specs.View.{view, table_view};
ghost use Rattle.cnb_toml.specs.Writing.{put};
ghost use Rattle.cnb_toml.specs.Written.{metadata_data, put_some};

use crate::meta::Meta;
use crate::written::Written;
use cnb_world::Memory;
use std::alloc::Global;
use toml::{Table, Value};

/// Puts a value at a key of a table, in place of the value that stands there.
pub fn put(alloc: Global, table: &mut Table, key: &str, value: Value) -> Result<(), Memory>
    ensures { OnOk result (table_view table.new ≡ put key.now (view value) (table_view table.old)) }
{
    let key = String::from_str(alloc, key)?;
    drop(table.insert(key, value)?);
    Ok(())
}

/// Puts a value of a kind at a key of a table.
pub fn put_at<F: Written>(
    alloc: Global,
    table: &mut Table,
    key: &str,
    value: &F::Value,
) -> Result<(), Memory>
    ensures written { OnOk result (table_view table.new ≡ put key.now (F.data_of value.now) (table_view table.old)) }
    ensures typed { OnOk result (IsTrue (F.is_typed value.now)) }
{
    let written = F::write(alloc, value)?;
    put(alloc, table, key, written)?;
    Ok(())
}

/// Puts a value of a kind at a key of a table, where there is one.
pub fn put_optional<F: Written>(
    alloc: Global,
    table: &mut Table,
    key: &str,
    value: &Option<F::Value>,
) -> Result<(), Memory>
    ensures written { OnOk result (table_view table.new ≡ put_some F.data_of key.now value.now (table_view table.old)) }
    ensures typed { OnOk result (IfSome value.now (λ v. IsTrue (F.is_typed v))) }
{
    match value {
        Some(value) => put_at::<F>(alloc, table, key, value),
        None => Ok(()),
    }
}

/// Puts metadata at its key of a table.
pub fn put_metadata(alloc: Global, table: &mut Table, meta: &Meta) -> Result<(), Memory>
    ensures { OnOk result (table_view table.new
        ≡ put (codes "metadata") (metadata_data meta.now) (table_view table.old)) }
{
    let written = meta.to_table(alloc)?;
    put(alloc, table, "metadata", Value::Table(written))?;
    Ok(())
}
