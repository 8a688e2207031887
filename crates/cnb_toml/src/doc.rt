// A document.
ghost use Rattle.std.specs.Prelude.{◌≡◌};
ghost use Rattle.toml.specs.View.{table_view};
ghost use Rattle.cnb_toml.specs.Reading.{Answers};
ghost use Rattle.cnb_toml.specs.Document.{table_of_document, read_table, document_in, or_not_toml};
ghost use Rattle.toml.specs.Parse.{parse_document};

use crate::fault::DocFault;
use std::alloc::Global;
use toml::Table;

/// A document as `toml` reads it.
#[derive(Drop)]
pub struct Doc {
    table: Table,
}

impl Doc {
    /// Reads a document: `NotUtf8` is judged before `NotToml`.
    #[tactic(auto, using(crate::proofs::Texts::is_text, crate::proofs::Texts::is_no_text))]
    pub fn read(alloc: Global, bytes: &[u8]) -> Result<Doc, DocFault>
        ensures { Answers (read_table result) (document_in bytes.now) }
    {
        match std::str::from_utf8(bytes) {
            Ok(text) => read_text(alloc, text),
            Err(_) => Err(DocFault::NotUtf8),
        }
    }

    pub fn table(&self) -> &Table
        ensures { table_view result.now ≡ table_of_document self.now }
    {
        &self.table
    }
}

fn read_text(alloc: Global, text: &str) -> Result<Doc, DocFault>
    ensures { Answers (read_table result) (or_not_toml (parse_document text.now)) }
{
    match toml::table_from_str(alloc, text) {
        Ok(table) => Ok(Doc { table }),
        Err(error) if error.is_memory() => Err(DocFault::Memory),
        Err(_) => Err(DocFault::NotToml),
    }
}
