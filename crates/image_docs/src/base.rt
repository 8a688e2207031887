// The run image that an image stands on.
ghost use Rattle.std.proofs.Common.{refl};
ghost use Rattle.cnb_toml.specs.WrittenLaws.{zero_within};
ghost use Rattle.image_docs.specs.Base.{base_in, has_base_names, is_base, base_members};
ghost use Rattle.image_docs.specs.BaseLaws.{base_read};

use crate::digest_text::DigestText;
use cnb_toml::{DocFault, ImageName, TableForm, TargetName, WrittenTable, put_at, required_at};
use cnb_world::{Memory, Text};
use std::alloc::Global;
use toml::Table;
use tree_canon::Digest;

/// The run image that an image stands on: its name, its topmost row, and its target.
#[derive(Drop)]
pub struct Base {
    pub name: ImageName,
    pub top: Digest,
    pub os: Text,
    pub arch: Text,
}

impl TableForm for Base {
    type Value = Base;

    ghost value_in = { base_in };

    fn read(alloc: Global, table: &Table) -> Result<Base, DocFault> {
        let name = required_at::<ImageName>(alloc, table, "name")?;
        let top = required_at::<DigestText>(alloc, table, "top")?;
        let os = required_at::<TargetName>(alloc, table, "os")?;
        let arch = required_at::<TargetName>(alloc, table, "arch")?;
        Ok(Base {
            name,
            top,
            os,
            arch,
        })
    }
}

impl WrittenTable for Base {
    ghost members_of = { base_members };

    ghost is_typed = { has_base_names };

    ghost is_sound = { is_base };

    ghost nesting = { 0 };

    fn write(alloc: Global, base: &Base) -> Result<Table, Memory> {
        let mut table = Table::new(alloc);
        put_at::<ImageName>(alloc, &mut table, "name", &base.name)?;
        put_at::<DigestText>(alloc, &mut table, "top", &base.top)?;
        put_at::<TargetName>(alloc, &mut table, "os", &base.os)?;
        put_at::<TargetName>(alloc, &mut table, "arch", &base.arch)?;
        Ok(table)
    }

    ghost reads_back = { base_read };

    ghost dates = { λ base. refl };

    ghost within = { λ base sound. zero_within 0 };
}
