//! The names and values that buildpack documents are made of, and the TOML that holds them.
//!
//! A document is read and written by forms. A `Form` says what a value is read as, and a `TableForm` what a table is,
//! over the keys of that table in their order; the first fault is answered, with its key path. `Written` and
//! `WrittenTable` say beside it what the value is written as, and prove that this reads back:
//!
//! ```rust
//! impl TableForm for Key {
//!     fn read(alloc: Global, table: &Table) -> Result<Key, DocFault> {
//!         let id = required_at::<BpId>(alloc, table, "id")?;
//!         let version = required_at::<BpVersion>(alloc, table, "version")?;
//!         Ok(Key { id, version })
//!     }
//! }
//!
//! impl WrittenTable for Key {
//!     fn write(alloc: Global, key: &Key) -> Result<Table, Memory> {
//!         let mut table = Table::new(alloc);
//!         put_at::<BpId>(alloc, &mut table, "id", &key.id)?;
//!         put_at::<BpVersion>(alloc, &mut table, "version", &key.version)?;
//!         Ok(table)
//!     }
//! }
//!
//! let keys = list_at::<TableOf<Key>>(alloc, doc.table(), "providers")?;
//! ```
#![tactic(auto)]

mod api;
mod doc;
mod document;
mod fault;
mod fields;
mod form;
mod image_name;
mod key;
mod label;
mod layer_name;
mod meta;
mod names;
mod need;
mod process;
mod process_type;
mod rows;
mod seen;
mod sorted_names;
mod target;
mod values;
mod writing;
mod written;

pub use api::{BUILDPACK_API, is_served};
pub use doc::Doc;
pub use document::{document_bytes, read_document, write_document};
pub use fault::{DocFault, NameFault, of_name, under};
pub use fields::{filled_list_at, list_at, optional_at, required_at, truth_at, value_or};
pub use form::{Form, ListOf, TableForm, TableOf, list_of};
pub use image_name::{ImageName, is_target_name};
pub use label::Label;
pub use layer_name::LayerName;
pub use meta::{Meta, MetaEntry, Need, metadata_at};
pub use names::{BpId, BpVersion, Key};
pub use process::Process;
pub use process_type::ProcType;
pub use rows::{RowForm, RowsOf};
pub use seen::see_key;
pub use sorted_names::ascending;
pub use target::Target;
pub use values::{FilledText, TargetName};
pub use writing::{put, put_at, put_metadata, put_optional};
pub use written::{Written, WrittenRow, WrittenTable};
