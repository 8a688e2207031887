// `build.toml`.
ghost use Rattle.std.specs.Prelude.{◌≡◌, true, refl, IfOk, Ok};
ghost use Rattle.cnb_toml.specs.Document.{document_in};
ghost use Rattle.cnb_toml.specs.Reading.{Answers};
ghost use Rattle.cnb_toml.specs.WrittenLaws.{zero_within};
ghost use Rattle.run_docs.specs.Build.{unmet_in, unmet_members, table_in, build_in, build_members};
ghost use Rattle.run_docs.specs.BuildLaws.{build_read, build_dates, build_within};

use cnb_toml::{
    DocFault, ListOf, TableForm, TableOf, WrittenTable, list_at, put_at, read_document,
    required_at, write_document,
};
use cnb_world::{Bytes, List, Memory, Text};
use std::alloc::Global;
use toml::Table;

/// The names that a buildpack leaves unmet (buildpack.md, "build.toml (TOML)", `unmet`).
pub type BuildToml = List<Text>;

/// A table of `unmet`.
struct Unmet;

impl TableForm for Unmet {
    type Value = Text;

    ghost value_in = { unmet_in };

    fn read(alloc: Global, table: &Table) -> Result<Text, DocFault> {
        required_at::<Text>(alloc, table, "name")
    }
}

impl WrittenTable for Unmet {
    ghost members_of = { unmet_members };

    ghost is_typed = { λ _. true };

    ghost is_sound = { λ _. true };

    ghost nesting = { 0 };

    fn write(alloc: Global, name: &Text) -> Result<Table, Memory> {
        let mut table = Table::new(alloc);
        put_at::<Text>(alloc, &mut table, "name", name)?;
        Ok(table)
    }

    ghost reads_back = { λ name typed sound. refl };

    ghost dates = { λ name. refl };

    ghost within = { λ name sound. zero_within 0 };
}

/// The table of `build.toml`.
struct Build;

impl TableForm for Build {
    type Value = BuildToml;

    ghost value_in = { table_in };

    fn read(alloc: Global, table: &Table) -> Result<BuildToml, DocFault> {
        list_at::<TableOf<Unmet>>(alloc, table, "unmet")
    }
}

impl WrittenTable for Build {
    ghost members_of = { build_members };

    ghost is_typed = { λ _. true };

    ghost is_sound = { λ _. true };

    ghost nesting = { 2 };

    fn write(alloc: Global, names: &BuildToml) -> Result<Table, Memory> {
        let mut table = Table::new(alloc);
        put_at::<ListOf<TableOf<Unmet>>>(alloc, &mut table, "unmet", names)?;
        Ok(table)
    }

    ghost reads_back = { build_read };

    ghost dates = { build_dates };

    ghost within = { build_within };
}

/// Reads `build.toml`. The first fault in the order of rows is answered, as `unmet.1.name`.
pub fn read_build(alloc: Global, bytes: &[u8]) -> Result<BuildToml, DocFault>
    ensures { Answers result (build_in bytes.now) }
{
    read_document::<Build>(alloc, bytes)
}

/// The text of `build.toml`.
pub fn write_build(alloc: Global, value: &BuildToml) -> Result<Bytes, Memory>
    ensures written { IfOk result (λ bytes. document_in bytes ≡ Ok (build_members value.now)) }
    ensures reads_back { IfOk result (λ bytes. build_in bytes ≡ Ok value.now) }
{
    write_document::<Build>(alloc, value)
}
