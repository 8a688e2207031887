// Run images.
ghost use Rattle.std.specs.Prelude.{◌≡◌, IfOk, IsTrue, Ok};
ghost use Rattle.cnb_toml.specs.Document.{document_in};
ghost use Rattle.cnb_toml.specs.Reading.{Answers};
ghost use Rattle.image_docs.specs.RunImage.{table_in, run_in, has_digests, is_run_doc, run_members};
ghost use Rattle.image_docs.specs.RunImageLaws.{run_read, run_dates, run_within};

use crate::digest_text::DigestText;
use crate::env_rows::EnvRows;
use cnb_toml::{
    DocFault, ListOf, TableForm, TargetName, WrittenTable, filled_list_at, put_at, read_document,
    required_at, value_or, write_document,
};
use cnb_world::{Bytes, Env, List, Memory, Text};
use std::alloc::Global;
use toml::Table;
use tree_canon::Digest;

/// An image that applications run on: its target, the trees of its rows from the lowest, and its environment. One that
/// can be read has a row.
#[derive(Drop)]
pub struct RunDoc {
    pub os: Text,
    pub arch: Text,
    pub rows: List<Digest>,
    pub env: Env,
}

impl TableForm for RunDoc {
    type Value = RunDoc;

    ghost value_in = { table_in };

    fn read(alloc: Global, table: &Table) -> Result<RunDoc, DocFault> {
        let os = required_at::<TargetName>(alloc, table, "os")?;
        let arch = required_at::<TargetName>(alloc, table, "arch")?;
        let rows = filled_list_at::<DigestText>(alloc, table, "rows")?;
        let env = value_or::<EnvRows>(alloc, table, "env", Env::new(alloc))?;
        Ok(RunDoc {
            os,
            arch,
            rows,
            env,
        })
    }
}

impl WrittenTable for RunDoc {
    ghost members_of = { run_members };

    ghost is_typed = { has_digests };

    ghost is_sound = { is_run_doc };

    ghost nesting = { 2 };

    fn write(alloc: Global, run: &RunDoc) -> Result<Table, Memory> {
        let mut table = Table::new(alloc);
        put_at::<TargetName>(alloc, &mut table, "os", &run.os)?;
        put_at::<TargetName>(alloc, &mut table, "arch", &run.arch)?;
        put_at::<ListOf<DigestText>>(alloc, &mut table, "rows", &run.rows)?;
        put_at::<EnvRows>(alloc, &mut table, "env", &run.env)?;
        Ok(table)
    }

    ghost reads_back = { run_read };

    ghost dates = { run_dates };

    ghost within = { run_within };
}

/// Reads a run image. The first fault in the order of keys and rows is answered, as `rows.1`.
pub fn read_run(alloc: Global, bytes: &[u8]) -> Result<RunDoc, DocFault>
    ensures image { Answers result (run_in bytes.now) }
    ensures readable { IfOk result (λ image. IsTrue (is_run_doc image)) }
{
    read_document::<RunDoc>(alloc, bytes)
}

/// The text of a run image.
pub fn write_run(alloc: Global, value: &RunDoc) -> Result<Bytes, Memory>
    ensures written { IfOk result (λ bytes. IsTrue (is_run_doc value.now)
        → document_in bytes ≡ Ok (run_members value.now)) }
    ensures reads_back { IfOk result (λ bytes. IsTrue (is_run_doc value.now) → run_in bytes ≡ Ok value.now) }
{
    write_document::<RunDoc>(alloc, value)
}
