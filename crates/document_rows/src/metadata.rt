// Documents as such, and the metadata of a table.
use crate::given::{given_bytes, told};
use cnb_toml::{Doc, DocFault, Meta};
use row_files::{Row, RowFault};
use std::alloc::{AllocError, Global};
use toml::Table;

/// The text of a table as a document.
pub(crate) fn text_of(alloc: Global, table: &Table) -> Result<String, AllocError> {
    match toml::table_to_string(alloc, table) {
        Ok(text) => Ok(text),
        Err(_) => Err(AllocError),
    }
}

fn document_of(alloc: Global, table: &Table) -> Result<String, DocFault> {
    match text_of(alloc, table) {
        Ok(text) => Ok(text),
        Err(AllocError) => Err(DocFault::Memory),
    }
}

fn document_text(alloc: Global, bytes: &[u8]) -> Result<String, DocFault> {
    let doc = Doc::read(alloc, bytes)?;
    document_of(alloc, doc.table())
}

/// What a document is read as, written again.
pub(crate) fn told_document(alloc: Global, row: &Row) -> Result<String, RowFault> {
    let bytes = given_bytes(alloc, row)?;
    told(alloc, document_text(alloc, &bytes))
}

fn metadata_text(alloc: Global, bytes: &[u8], path: &str) -> Result<String, DocFault> {
    let doc = Doc::read(alloc, bytes)?;
    let meta = Meta::from_table(alloc, doc.table(), path)?;
    let copy = meta.copy(alloc)?;
    document_of(alloc, &copy.to_table(alloc)?)
}

/// What a document's table is kept as, as metadata at `path`, copied and written again.
pub(crate) fn told_metadata(alloc: Global, row: &Row) -> Result<String, RowFault> {
    let bytes = given_bytes(alloc, row)?;
    let path = row.text(alloc, "path")?;
    told(alloc, metadata_text(alloc, &bytes, path))
}
