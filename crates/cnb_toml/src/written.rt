// Values that are read as they were written.
ghost use Rattle.std.specs.Prelude.{◌≡◌, suc, [], map, IfOk, OnOk, IsTrue};
ghost use Rattle.std.specs.List.{list_all};
ghost use Rattle.toml.specs.Data.{members_depth};
ghost use Rattle.toml.specs.View.{items_of, array_view};
ghost use Rattle.cnb_toml.specs.Written.{list_data, table_data, all_follow};
ghost use Rattle.cnb_toml.specs.WrittenLaws.{list_dates, list_within, list_read, rows_read, rows_within, suc_within};

use crate::form::{Form, ListOf, TableForm, TableOf};
use crate::rows::{RowForm, RowsOf};
use cnb_world::{List, Memory};
use std::alloc::Global;
use toml::value::Array;
use toml::{Table, Value};

/// A kind of value that is read as it was written, where it is sound.
///
/// `data_of` is what a value is written as; `is_typed` what the type says of every value, and `is_sound` what the value
/// must meet besides; lists and tables nest at most `nesting` deep in what is written. The laws are that a value reads
/// back, that what is written holds no date-time that `toml` refuses, and that it nests no deeper than `nesting`.
pub trait Written: Form {
    ghost use Rattle.std.specs.Prelude.{◌≡◌, ◌≤◌, ℕ, Bool, true, IfOk, OnOk, IsTrue, Ok};
    ghost use Rattle.toml.specs.Data.{Data, depth, has_valid_dates};
    ghost use Rattle.toml.specs.View.{view};

    ghost data_of: { Self.Value → Data };

    ghost is_typed: { Self.Value → Bool };

    ghost is_sound: { Self.Value → Bool };

    ghost nesting: { ℕ };

    fn write(alloc: Global, value: &Self::Value) -> Result<Value, Memory>
        ensures written { IfOk result (λ written. view written ≡ data_of value.now) }
        ensures typed { OnOk result (IsTrue (is_typed value.now)) };

    ghost reads_back: { (v : Self.Value) → is_typed v ≡ true → is_sound v ≡ true → Self.value_of (data_of v) ≡ Ok v };

    ghost dates: { (v : Self.Value) → has_valid_dates (data_of v) ≡ true };

    ghost within: { (v : Self.Value) → is_sound v ≡ true → depth (data_of v) ≤ nesting };
}

/// A kind of table that is read as it was written, where its value is sound; its members are as `Written` has them.
pub trait WrittenTable: TableForm {
    ghost use Rattle.std.specs.Prelude.{◌≡◌, ◌≤◌, ℕ, Bool, true, IfOk, OnOk, IsTrue, Ok};
    ghost use Rattle.toml.specs.Data.{Members, members_depth, members_have_valid_dates};
    ghost use Rattle.toml.specs.View.{table_view};

    ghost members_of: { Self.Value → Members };

    ghost is_typed: { Self.Value → Bool };

    ghost is_sound: { Self.Value → Bool };

    ghost nesting: { ℕ };

    fn write(alloc: Global, value: &Self::Value) -> Result<Table, Memory>
        ensures written { IfOk result (λ written. table_view written ≡ members_of value.now) }
        ensures typed { OnOk result (IsTrue (is_typed value.now)) };

    ghost reads_back: { (v : Self.Value) → is_typed v ≡ true → is_sound v ≡ true
        → Self.value_in (members_of v) ≡ Ok v };

    ghost dates: { (v : Self.Value) → members_have_valid_dates (members_of v) ≡ true };

    ghost within: { (v : Self.Value) → is_sound v ≡ true → members_depth (members_of v) ≤ nesting };
}

/// A kind of row that is read as it was written, where it `follows` those before it, which is what its value must meet.
pub trait WrittenRow: RowForm {
    ghost use Rattle.std.specs.Prelude.{◌≡◌, ◌≤◌, ℕ, Bool, true, List, IfOk, OnOk, IsTrue, Ok};
    ghost use Rattle.toml.specs.Data.{Members, members_depth, members_have_valid_dates};
    ghost use Rattle.toml.specs.View.{table_view};

    ghost members_of: { Self.Value → Members };

    ghost is_typed: { Self.Value → Bool };

    ghost follows: { List Self.Value → Self.Value → Bool };

    ghost nesting: { ℕ };

    fn write(alloc: Global, value: &Self::Value) -> Result<Table, Memory>
        ensures written { IfOk result (λ written. table_view written ≡ members_of value.now) }
        ensures typed { OnOk result (IsTrue (is_typed value.now)) };

    ghost reads_back: { (before : List Self.Value) (v : Self.Value) → is_typed v ≡ true → follows before v ≡ true
        → Self.row_in before (members_of v) ≡ Ok v };

    ghost dates: { (v : Self.Value) → members_have_valid_dates (members_of v) ≡ true };

    ghost within: { (before : List Self.Value) (v : Self.Value) → follows before v ≡ true
        → members_depth (members_of v) ≤ nesting };
}

impl<F: Written> Written for ListOf<F> {
    ghost data_of = { list_data F.data_of };

    ghost is_typed = { list_all F.is_typed };

    ghost is_sound = { list_all F.is_sound };

    ghost nesting = { suc F.nesting };

    fn write(alloc: Global, value: &List<F::Value>) -> Result<Value, Memory> {
        Ok(Value::Array(written_items::<F>(alloc, value.as_slice())?))
    }

    ghost reads_back = { list_read F.data_of F.value_of F.is_typed F.is_sound F.reads_back };

    ghost dates = { list_dates F.data_of F.dates };

    ghost within = { list_within F.data_of F.is_sound F.nesting F.within };
}

fn written_items<F: Written>(alloc: Global, items: &[F::Value]) -> Result<Array, Memory>
    ensures written { IfOk result (λ values. array_view values ≡ items_of (map F.data_of items.now)) }
    ensures typed { OnOk result (IsTrue (list_all F.is_typed items.now)) }
{
    let mut values = Array::new(alloc);
    for item in items {
        values.push(F::write(alloc, item)?)?;
    }
    Ok(values)
}

impl<F: WrittenTable> Written for TableOf<F> {
    ghost data_of = { table_data F.members_of };

    ghost is_typed = { F.is_typed };

    ghost is_sound = { F.is_sound };

    ghost nesting = { suc F.nesting };

    fn write(alloc: Global, value: &F::Value) -> Result<Value, Memory> {
        Ok(Value::Table(F::write(alloc, value)?))
    }

    ghost reads_back = { F.reads_back };

    ghost dates = { F.dates };

    ghost within = { λ v sound. suc_within (members_depth (F.members_of v)) F.nesting (F.within v sound) };
}

impl<F: WrittenRow> Written for RowsOf<F> {
    ghost data_of = { list_data (table_data F.members_of) };

    ghost is_typed = { list_all F.is_typed };

    ghost is_sound = { all_follow F.follows [] };

    ghost nesting = { suc (suc F.nesting) };

    fn write(alloc: Global, value: &List<F::Value>) -> Result<Value, Memory> {
        Ok(Value::Array(written_rows::<F>(alloc, value.as_slice())?))
    }

    ghost reads_back = { rows_read F.members_of F.row_in F.is_typed F.follows F.reads_back };

    ghost dates = { list_dates (table_data F.members_of) F.dates };

    ghost within = { rows_within F.members_of F.row_in F.is_typed F.follows F.nesting F.within };
}

fn written_rows<F: WrittenRow>(alloc: Global, rows: &[F::Value]) -> Result<Array, Memory>
    ensures written { IfOk result (λ values. array_view values ≡ items_of (map (table_data F.members_of) rows.now)) }
    ensures typed { OnOk result (IsTrue (list_all F.is_typed rows.now)) }
{
    let mut values = Array::new(alloc);
    for row in rows {
        values.push(Value::Table(F::write(alloc, row)?))?;
    }
    Ok(values)
}
