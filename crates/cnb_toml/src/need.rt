// Requirements in documents.
ghost use Rattle.std.specs.Prelude.{◌≡◌, IfOk};
ghost use Rattle.toml.specs.View.{table_view};
ghost use Rattle.cnb_toml.specs.Need.{need_in, need_members};

use crate::fault::DocFault;
use crate::fields::required_at;
use crate::form::TableForm;
use crate::meta::{Need, metadata_at};
use crate::writing::{put_at, put_metadata};
use cnb_world::{Memory, Text};
use std::alloc::Global;
use toml::Table;

impl TableForm for Need {
    type Value = Need;

    ghost value_in = { need_in };

    fn read(alloc: Global, table: &Table) -> Result<Need, DocFault> {
        let name = required_at::<Text>(alloc, table, "name")?;
        let meta = metadata_at(alloc, table)?;
        Ok(Need { name, meta })
    }
}

impl Need {
    /// The table that the requirement is written as.
    pub fn to_table(&self, alloc: Global) -> Result<Table, Memory>
        ensures { IfOk result (λ table. table_view table ≡ need_members self.now) }
    {
        let mut table = Table::new(alloc);
        put_at::<Text>(alloc, &mut table, "name", &self.name)?;
        put_metadata(alloc, &mut table, &self.meta)?;
        Ok(table)
    }
}
