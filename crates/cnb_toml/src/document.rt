// Documents as bytes.
ghost use Rattle.std.specs.Prelude.{◌≡◌, ◌≤◌, true, IfOk, Ok};
ghost use Rattle.toml.specs.Data.{members_depth, members_have_valid_dates};
ghost use Rattle.toml.specs.View.{table_view};
ghost use Rattle.cnb_toml.specs.Document.{document_in, document_of};
ghost use Rattle.cnb_toml.specs.Reading.{Answers};
ghost use Rattle.cnb_toml.specs.Writing.{nesting_limit};

use crate::doc::Doc;
use crate::fault::DocFault;
use crate::form::TableForm;
use crate::written::WrittenTable;
use cnb_world::{Bytes, Memory};
use std::alloc::Global;
use toml::Table;
use toml::ser::Error;

/// The value of a document's table.
pub fn read_document<F: TableForm>(alloc: Global, bytes: &[u8]) -> Result<F::Value, DocFault>
    ensures { Answers result (document_of F.value_in bytes.now) }
{
    let doc = Doc::read(alloc, bytes)?;
    F::read(alloc, doc.table())
}

/// The bytes of a document, which hold each key of the value and, where it is sound, read as it. Their layout isn't
/// fixed.
pub fn write_document<F: WrittenTable>(alloc: Global, value: &F::Value) -> Result<Bytes, Memory>
    requires { F.nesting ≤ nesting_limit }
    ensures written { IfOk result (λ bytes. F.is_sound value.now ≡ true
        → document_in bytes ≡ Ok (F.members_of value.now)) }
    ensures reads_back { IfOk result (λ bytes. F.is_sound value.now ≡ true
        → document_of F.value_in bytes ≡ Ok value.now) }
{
    let table = F::write(alloc, value)?;
    document_bytes(alloc, &table)
}

/// The bytes of a table as a document, whose layout isn't fixed.
pub fn document_bytes(alloc: Global, table: &Table) -> Result<Bytes, Memory>
    requires { members_have_valid_dates (table_view table.now) ≡ true }
    ensures { IfOk result (λ bytes. members_depth (table_view table.now) ≤ nesting_limit
        → document_in bytes ≡ Ok (table_view table.now)) }
{
    match toml::table_to_string(alloc, table) {
        Ok(text) => Ok(Bytes::from_vec(text.into_bytes())),
        Err(Error::OutOfMemory) => Err(Memory),
        Err(Error::DateInvalid) => unreachable!(),
    }
}
