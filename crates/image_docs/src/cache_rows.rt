// The layers that a cache keeps.
ghost use Rattle.std.specs.Prelude.{◌≡◌, true, IfOk, IsTrue, Ok};
ghost use Rattle.std.specs.List.{list_all};
ghost use Rattle.cnb_toml.specs.Document.{document_in};
ghost use Rattle.cnb_toml.specs.Reading.{Answers};
ghost use Rattle.image_docs.specs.CacheRows.{cache_in, is_cache_doc, cache_members};
ghost use Rattle.image_docs.specs.CacheRowsLaws.{cache_read, cache_dates, cache_within};
ghost use Rattle.image_docs.specs.LayerRow.{layers_at, has_layer_names};

use crate::layer_row::{LayerRow, LayerTable};
use cnb_toml::{
    DocFault, RowsOf, TableForm, WrittenTable, put_at, read_document, value_or, write_document,
};
use cnb_world::{Bytes, List, Memory};
use std::alloc::Global;
use toml::Table;

/// The layers that a cache keeps. In those that can be read no two are one layer, and each has the flag `cache`.
pub type CacheDoc = List<LayerRow>;

/// The table of a cache's document.
struct Cache;

impl TableForm for Cache {
    type Value = CacheDoc;

    ghost value_in = { layers_at true };

    fn read(alloc: Global, table: &Table) -> Result<CacheDoc, DocFault> {
        value_or::<RowsOf<LayerTable<true>>>(alloc, table, "layers", List::new(alloc))
    }
}

impl WrittenTable for Cache {
    ghost members_of = { cache_members };

    ghost is_typed = { list_all has_layer_names };

    ghost is_sound = { is_cache_doc };

    ghost nesting = { 35 };

    fn write(alloc: Global, rows: &CacheDoc) -> Result<Table, Memory> {
        let mut table = Table::new(alloc);
        put_at::<RowsOf<LayerTable<true>>>(alloc, &mut table, "layers", rows)?;
        Ok(table)
    }

    ghost reads_back = { cache_read };

    ghost dates = { cache_dates };

    ghost within = { cache_within };
}

/// Reads a cache's document. The first fault in the order of keys and rows is answered, as `layers.0.cache`.
pub fn read_cache(alloc: Global, bytes: &[u8]) -> Result<CacheDoc, DocFault>
    ensures { Answers result (cache_in bytes.now) }
{
    read_document::<Cache>(alloc, bytes)
}

/// The text of a cache's document.
pub fn write_cache(alloc: Global, value: &CacheDoc) -> Result<Bytes, Memory>
    ensures written { IfOk result (λ bytes. IsTrue (is_cache_doc value.now)
        → document_in bytes ≡ Ok (cache_members value.now)) }
    ensures reads_back { IfOk result (λ bytes. IsTrue (is_cache_doc value.now) → cache_in bytes ≡ Ok value.now) }
{
    write_document::<Cache>(alloc, value)
}
