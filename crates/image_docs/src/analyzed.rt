// `analyzed.toml`.
ghost use Rattle.std.specs.Prelude.{◌≡◌, IfOk, IsTrue, Ok};
ghost use Rattle.cnb_toml.specs.Document.{document_in};
ghost use Rattle.cnb_toml.specs.Reading.{Answers};
ghost use Rattle.image_docs.specs.Analyzed.{table_in, analyzed_in, has_names, is_analyzed, analyzed_members};
ghost use Rattle.image_docs.specs.AnalyzedLaws.{analyzed_read, analyzed_dates, analyzed_within};

use cnb_toml::{
    DocFault, ImageName, TableForm, TargetName, WrittenTable, optional_at, put_at, put_optional,
    read_document, required_at, write_document,
};
use cnb_world::{Bytes, Memory, Text};
use std::alloc::Global;
use toml::Table;

/// What the phases after `analyze` know of the images: the run image with its target, and the previous image.
#[derive(Drop)]
pub struct Analyzed {
    pub run: ImageName,
    pub os: Text,
    pub arch: Text,
    pub previous: Option<ImageName>,
}

impl TableForm for Analyzed {
    type Value = Analyzed;

    ghost value_in = { table_in };

    fn read(alloc: Global, table: &Table) -> Result<Analyzed, DocFault> {
        let run = required_at::<ImageName>(alloc, table, "run")?;
        let os = required_at::<TargetName>(alloc, table, "os")?;
        let arch = required_at::<TargetName>(alloc, table, "arch")?;
        let previous = optional_at::<ImageName>(alloc, table, "previous")?;
        Ok(Analyzed {
            run,
            os,
            arch,
            previous,
        })
    }
}

impl WrittenTable for Analyzed {
    ghost members_of = { analyzed_members };

    ghost is_typed = { has_names };

    ghost is_sound = { is_analyzed };

    ghost nesting = { 0 };

    fn write(alloc: Global, analyzed: &Analyzed) -> Result<Table, Memory> {
        let mut table = Table::new(alloc);
        put_at::<ImageName>(alloc, &mut table, "run", &analyzed.run)?;
        put_at::<TargetName>(alloc, &mut table, "os", &analyzed.os)?;
        put_at::<TargetName>(alloc, &mut table, "arch", &analyzed.arch)?;
        put_optional::<ImageName>(alloc, &mut table, "previous", &analyzed.previous)?;
        Ok(table)
    }

    ghost reads_back = { analyzed_read };

    ghost dates = { analyzed_dates };

    ghost within = { analyzed_within };
}

/// Reads `analyzed.toml`. The first fault in the order of keys is answered.
pub fn read_analyzed(alloc: Global, bytes: &[u8]) -> Result<Analyzed, DocFault>
    ensures { Answers result (analyzed_in bytes.now) }
{
    read_document::<Analyzed>(alloc, bytes)
}

/// The text of `analyzed.toml`.
pub fn write_analyzed(alloc: Global, value: &Analyzed) -> Result<Bytes, Memory>
    ensures written { IfOk result (λ bytes. IsTrue (is_analyzed value.now)
        → document_in bytes ≡ Ok (analyzed_members value.now)) }
    ensures reads_back { IfOk result (λ bytes. IsTrue (is_analyzed value.now) → analyzed_in bytes ≡ Ok value.now) }
{
    write_document::<Analyzed>(alloc, value)
}
