// `store.toml`.
ghost use Rattle.std.specs.Prelude.{◌≡◌, true, IfOk, IsTrue, Ok};
ghost use Rattle.cnb_toml.specs.Document.{document_in};
ghost use Rattle.cnb_toml.specs.Reading.{Answers};
ghost use Rattle.run_docs.specs.Store.{table_in, store_in, is_store_toml, store_members};
ghost use Rattle.run_docs.specs.StoreLaws.{store_read, store_dates, store_within};

use cnb_toml::{
    DocFault, Meta, TableForm, WrittenTable, metadata_at, put_metadata, read_document,
    write_document,
};
use cnb_world::{Bytes, Memory};
use std::alloc::Global;
use toml::Table;

/// What a buildpack keeps for its next build (buildpack.md, "store.toml (TOML)").
#[derive(Drop)]
pub struct StoreToml {
    pub meta: Meta,
}

impl TableForm for StoreToml {
    type Value = StoreToml;

    ghost value_in = { table_in };

    fn read(alloc: Global, table: &Table) -> Result<StoreToml, DocFault> {
        let meta = metadata_at(alloc, table)?;
        Ok(StoreToml { meta })
    }
}

impl WrittenTable for StoreToml {
    ghost members_of = { store_members };

    ghost is_typed = { λ _. true };

    ghost is_sound = { is_store_toml };

    ghost nesting = { 33 };

    fn write(alloc: Global, store: &StoreToml) -> Result<Table, Memory> {
        let mut table = Table::new(alloc);
        put_metadata(alloc, &mut table, &store.meta)?;
        Ok(table)
    }

    ghost reads_back = { store_read };

    ghost dates = { store_dates };

    ghost within = { store_within };
}

/// Reads `store.toml`.
pub fn read_store(alloc: Global, bytes: &[u8]) -> Result<StoreToml, DocFault>
    ensures { Answers result (store_in bytes.now) }
{
    read_document::<StoreToml>(alloc, bytes)
}

/// The text of `store.toml`.
pub fn write_store(alloc: Global, value: &StoreToml) -> Result<Bytes, Memory>
    ensures written { IfOk result (λ bytes. IsTrue (is_store_toml value.now)
        → document_in bytes ≡ Ok (store_members value.now)) }
    ensures reads_back { IfOk result (λ bytes. IsTrue (is_store_toml value.now) → store_in bytes ≡ Ok value.now) }
{
    write_document::<StoreToml>(alloc, value)
}
