// A process of an image.
ghost use Rattle.cnb_toml.specs.Process.{process_in, process_members, has_type, is_process};
ghost use Rattle.cnb_toml.specs.ProcessLaws.{process_read, process_dates, process_within};

use crate::fault::DocFault;
use crate::fields::{filled_list_at, list_at, optional_at, required_at, truth_at};
use crate::form::{ListOf, TableForm};
use crate::process_type::ProcType;
use crate::writing::{put_at, put_optional};
use crate::written::WrittenTable;
use cnb_world::{List, Memory, Path, Text};
use std::alloc::Global;
use toml::Table;

/// A process (buildpack.md, "launch.toml (TOML)", `processes`). One that can be read has a word in `command`, and a
/// `dir` of at most 4,096 bytes.
#[derive(Drop)]
pub struct Process {
    pub kind: ProcType,
    pub command: List<Text>,
    pub args: List<Text>,
    pub default: bool,
    pub dir: Option<Path>,
}

impl TableForm for Process {
    type Value = Process;

    ghost value_in = { process_in };

    fn read(alloc: Global, table: &Table) -> Result<Process, DocFault> {
        let kind = required_at::<ProcType>(alloc, table, "type")?;
        let command = filled_list_at::<Text>(alloc, table, "command")?;
        let args = list_at::<Text>(alloc, table, "args")?;
        let default = truth_at(alloc, table, "default")?;
        let dir = optional_at::<Path>(alloc, table, "working-dir")?;
        Ok(Process {
            kind,
            command,
            args,
            default,
            dir,
        })
    }
}

impl WrittenTable for Process {
    ghost members_of = { process_members };

    ghost is_typed = { has_type };

    ghost is_sound = { is_process };

    ghost nesting = { 1 };

    fn write(alloc: Global, process: &Process) -> Result<Table, Memory> {
        let mut table = Table::new(alloc);
        put_at::<ProcType>(alloc, &mut table, "type", &process.kind)?;
        put_at::<ListOf<Text>>(alloc, &mut table, "command", &process.command)?;
        put_at::<ListOf<Text>>(alloc, &mut table, "args", &process.args)?;
        put_at::<bool>(alloc, &mut table, "default", &process.default)?;
        put_optional::<Path>(alloc, &mut table, "working-dir", &process.dir)?;
        Ok(table)
    }

    ghost reads_back = { process_read };

    ghost dates = { process_dates };

    ghost within = { process_within };
}
