// `launch.toml`.
ghost use Rattle.std.specs.Prelude.{◌≡◌, true, IfOk, IsTrue, Ok};
ghost use Rattle.cnb_toml.specs.Document.{document_in};
ghost use Rattle.cnb_toml.specs.Reading.{Answers};
ghost use Rattle.run_docs.specs.Launch.{slice_in, slice_members, table_in, launch_in, has_types, is_launch_toml};
ghost use Rattle.run_docs.specs.Launch.{launch_members};
ghost use Rattle.run_docs.specs.LaunchLaws.{slice_read, slice_dates, slice_within, launch_read, launch_dates};
ghost use Rattle.run_docs.specs.LaunchLaws.{launch_within};

use cnb_toml::{
    DocFault, Label, ListOf, Process, TableForm, TableOf, WrittenTable, list_at, put_at,
    read_document, write_document,
};
use cnb_world::{Bytes, List, Memory, Text};
use std::alloc::Global;
use toml::Table;

/// What a buildpack gives to the image (buildpack.md, "launch.toml (TOML)"). A type may have several processes, of
/// which the last counts. A slice is the list of its path patterns.
#[derive(Drop)]
pub struct LaunchToml {
    pub labels: List<Label>,
    pub processes: List<Process>,
    pub slices: List<List<Text>>,
}

/// A table of `slices`.
struct Slice;

impl TableForm for Slice {
    type Value = List<Text>;

    ghost value_in = { slice_in };

    fn read(alloc: Global, table: &Table) -> Result<List<Text>, DocFault> {
        list_at::<Text>(alloc, table, "paths")
    }
}

impl WrittenTable for Slice {
    ghost members_of = { slice_members };

    ghost is_typed = { λ _. true };

    ghost is_sound = { λ _. true };

    ghost nesting = { 1 };

    fn write(alloc: Global, paths: &List<Text>) -> Result<Table, Memory> {
        let mut table = Table::new(alloc);
        put_at::<ListOf<Text>>(alloc, &mut table, "paths", paths)?;
        Ok(table)
    }

    ghost reads_back = { slice_read };

    ghost dates = { slice_dates };

    ghost within = { slice_within };
}

impl TableForm for LaunchToml {
    type Value = LaunchToml;

    ghost value_in = { table_in };

    fn read(alloc: Global, table: &Table) -> Result<LaunchToml, DocFault> {
        let labels = list_at::<TableOf<Label>>(alloc, table, "labels")?;
        let processes = list_at::<TableOf<Process>>(alloc, table, "processes")?;
        let slices = list_at::<TableOf<Slice>>(alloc, table, "slices")?;
        Ok(LaunchToml {
            labels,
            processes,
            slices,
        })
    }
}

impl WrittenTable for LaunchToml {
    ghost members_of = { launch_members };

    ghost is_typed = { has_types };

    ghost is_sound = { is_launch_toml };

    ghost nesting = { 3 };

    fn write(alloc: Global, launch: &LaunchToml) -> Result<Table, Memory> {
        let mut table = Table::new(alloc);
        put_at::<ListOf<TableOf<Label>>>(alloc, &mut table, "labels", &launch.labels)?;
        put_at::<ListOf<TableOf<Process>>>(alloc, &mut table, "processes", &launch.processes)?;
        put_at::<ListOf<TableOf<Slice>>>(alloc, &mut table, "slices", &launch.slices)?;
        Ok(table)
    }

    ghost reads_back = { launch_read };

    ghost dates = { launch_dates };

    ghost within = { launch_within };
}

/// Reads `launch.toml`. The first fault in the order of keys and rows is answered, as `processes.0.command.1`.
pub fn read_launch(alloc: Global, bytes: &[u8]) -> Result<LaunchToml, DocFault>
    ensures { Answers result (launch_in bytes.now) }
{
    read_document::<LaunchToml>(alloc, bytes)
}

/// The text of `launch.toml`.
pub fn write_launch(alloc: Global, value: &LaunchToml) -> Result<Bytes, Memory>
    ensures written { IfOk result (λ bytes. IsTrue (is_launch_toml value.now)
        → document_in bytes ≡ Ok (launch_members value.now)) }
    ensures reads_back { IfOk result (λ bytes. IsTrue (is_launch_toml value.now) → launch_in bytes ≡ Ok value.now) }
{
    write_document::<LaunchToml>(alloc, value)
}
