// How an image is launched.
ghost use Rattle.std.specs.Prelude.{◌≡◌, IfOk, IsTrue, Ok};
ghost use Rattle.std.specs.Str.{bytes_eq};
ghost use Rattle.cnb_toml.specs.Distinct.{HasKeysOf};
ghost use Rattle.cnb_toml.specs.Document.{document_in};
ghost use Rattle.cnb_toml.specs.Process.{process_members, has_type, is_process};
ghost use Rattle.cnb_toml.specs.ProcessLaws.{process_dates};
ghost use Rattle.cnb_toml.specs.Reading.{Answers};
ghost use Rattle.image_docs.specs.DistinctRows.{may_follow};
ghost use Rattle.image_docs.specs.LaunchDoc.{process_kind, process_row_in, launch_doc_table_in, launch_doc_in};
ghost use Rattle.image_docs.specs.LaunchDoc.{has_launch_names, is_launch_doc, launch_doc_members};
ghost use Rattle.image_docs.specs.LaunchDocLaws.{process_row_read, process_row_within, launch_doc_read};
ghost use Rattle.image_docs.specs.LaunchDocLaws.{launch_doc_dates, launch_doc_within};

use cnb_toml::{
    DocFault, Key, ListOf, ProcType, Process, RowForm, RowsOf, TableForm, TableOf, WrittenRow,
    WrittenTable, list_at, optional_at, put_at, put_optional, read_document, see_key, value_or,
    write_document,
};
use cnb_world::{Bytes, List, Memory};
use std::alloc::Global;
use std::collections::HashSet;
use toml::Table;

/// The buildpacks of an image, and its processes. In one that can be read no two processes have one type; `default`
/// may be the type of none.
#[derive(Drop)]
pub struct LaunchDoc {
    pub buildpacks: List<Key>,
    pub processes: List<Process>,
    pub default: Option<ProcType>,
}

/// A process whose type none before it has.
struct ProcessRow;

impl RowForm for ProcessRow {
    type Value = Process;

    /// The types of the processes before.
    type Seen = HashSet<ProcType>;

    ghost row_in = { process_row_in };

    ghost keeps = { λ before seen. HasKeysOf bytes_eq process_kind before seen };

    fn none_seen(alloc: Global) -> HashSet<ProcType> {
        HashSet::new(alloc)
    }

    fn read(alloc: Global, seen: &HashSet<ProcType>, table: &Table) -> Result<Process, DocFault> {
        let process = <Process as TableForm>::read(alloc, table)?;
        if seen.contains(&process.kind) {
            return Err(DocFault::wrong(alloc));
        }
        Ok(process)
    }

    fn see(alloc: Global, seen: &mut HashSet<ProcType>, process: &Process) -> Result<(), Memory> {
        let kind = process.kind.copy(alloc)?;
        see_key(seen, kind)?;
        Ok(())
    }
}

impl WrittenRow for ProcessRow {
    ghost members_of = { process_members };

    ghost is_typed = { has_type };

    ghost follows = { may_follow bytes_eq process_kind is_process };

    ghost nesting = { 1 };

    fn write(alloc: Global, process: &Process) -> Result<Table, Memory> {
        <Process as WrittenTable>::write(alloc, process)
    }

    ghost reads_back = { process_row_read };

    ghost dates = { process_dates };

    ghost within = { process_row_within };
}

impl TableForm for LaunchDoc {
    type Value = LaunchDoc;

    ghost value_in = { launch_doc_table_in };

    fn read(alloc: Global, table: &Table) -> Result<LaunchDoc, DocFault> {
        let buildpacks = list_at::<TableOf<Key>>(alloc, table, "buildpacks")?;
        let processes = value_or::<RowsOf<ProcessRow>>(
            alloc,
            table,
            "processes",
            List::new(alloc),
        )?;
        let default = optional_at::<ProcType>(alloc, table, "default")?;
        Ok(LaunchDoc {
            buildpacks,
            processes,
            default,
        })
    }
}

impl WrittenTable for LaunchDoc {
    ghost members_of = { launch_doc_members };

    ghost is_typed = { has_launch_names };

    ghost is_sound = { is_launch_doc };

    ghost nesting = { 3 };

    fn write(alloc: Global, launch: &LaunchDoc) -> Result<Table, Memory> {
        let mut table = Table::new(alloc);
        put_at::<ListOf<TableOf<Key>>>(alloc, &mut table, "buildpacks", &launch.buildpacks)?;
        put_at::<RowsOf<ProcessRow>>(alloc, &mut table, "processes", &launch.processes)?;
        put_optional::<ProcType>(alloc, &mut table, "default", &launch.default)?;
        Ok(table)
    }

    ghost reads_back = { launch_doc_read };

    ghost dates = { launch_doc_dates };

    ghost within = { launch_doc_within };
}

/// Reads a launch document. The first fault in the order of keys and rows is answered, as `processes.1`.
pub fn read_launch_doc(alloc: Global, bytes: &[u8]) -> Result<LaunchDoc, DocFault>
    ensures { Answers result (launch_doc_in bytes.now) }
{
    read_document::<LaunchDoc>(alloc, bytes)
}

/// The text of a launch document.
pub fn write_launch_doc(alloc: Global, value: &LaunchDoc) -> Result<Bytes, Memory>
    ensures written { IfOk result (λ bytes. IsTrue (is_launch_doc value.now)
        → document_in bytes ≡ Ok (launch_doc_members value.now)) }
    ensures reads_back { IfOk result (λ bytes. IsTrue (is_launch_doc value.now) → launch_doc_in bytes ≡ Ok value.now) }
{
    write_document::<LaunchDoc>(alloc, value)
}
