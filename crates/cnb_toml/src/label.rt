// Labels of an image.
ghost use Rattle.cnb_toml.specs.Label.{label_in, label_members, is_label};
ghost use Rattle.cnb_toml.specs.LabelLaws.{label_read};
ghost use Rattle.cnb_toml.specs.WrittenLaws.{zero_within};
ghost use Rattle.std.specs.Prelude.{true, refl};

use crate::fault::DocFault;
use crate::fields::required_at;
use crate::form::TableForm;
use crate::values::FilledText;
use crate::writing::put_at;
use crate::written::WrittenTable;
use cnb_world::{Memory, Text};
use std::alloc::Global;
use toml::Table;

/// A label of an image (buildpack.md, "launch.toml (TOML)", `labels`). A key that can be read isn't empty.
#[derive(Drop)]
pub struct Label {
    pub key: Text,
    pub value: Text,
}

impl TableForm for Label {
    type Value = Label;

    ghost value_in = { label_in };

    fn read(alloc: Global, table: &Table) -> Result<Label, DocFault> {
        let key = required_at::<FilledText>(alloc, table, "key")?;
        let value = required_at::<Text>(alloc, table, "value")?;
        Ok(Label { key, value })
    }
}

impl WrittenTable for Label {
    ghost members_of = { label_members };

    ghost is_typed = { λ _. true };

    ghost is_sound = { is_label };

    ghost nesting = { 0 };

    fn write(alloc: Global, label: &Label) -> Result<Table, Memory> {
        let mut table = Table::new(alloc);
        put_at::<FilledText>(alloc, &mut table, "key", &label.key)?;
        put_at::<Text>(alloc, &mut table, "value", &label.value)?;
        Ok(table)
    }

    ghost reads_back = { label_read };

    ghost dates = { λ label. refl };

    ghost within = { λ label sound. zero_within 0 };
}
