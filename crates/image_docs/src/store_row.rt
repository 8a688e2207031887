// What buildpacks keep for their next build, in an image.
ghost use Rattle.std.specs.Prelude.{◌≡◌};
ghost use Rattle.std.specs.Str.{bytes_eq};
ghost use Rattle.cnb_toml.specs.Distinct.{HasKeysOf};
ghost use Rattle.image_docs.specs.DistinctRows.{may_follow};
ghost use Rattle.image_docs.specs.StoreRow.{store_id, store_row_in, has_id, is_kept_row, store_members};
ghost use Rattle.image_docs.specs.StoreRowLaws.{store_row_read, store_row_dates, store_row_within};

use cnb_toml::{
    BpId, DocFault, Meta, RowForm, WrittenRow, metadata_at, put_at, put_metadata, required_at,
    see_key,
};
use cnb_world::Memory;
use std::alloc::Global;
use std::collections::HashSet;
use toml::Table;

/// What a buildpack keeps for its next build, as its `store.toml` has it.
#[derive(Drop)]
pub struct StoreRow {
    pub id: BpId,
    pub meta: Meta,
}

impl RowForm for StoreRow {
    type Value = StoreRow;

    /// The ids of the rows before.
    type Seen = HashSet<BpId>;

    ghost row_in = { store_row_in };

    ghost keeps = { λ before seen. HasKeysOf bytes_eq store_id before seen };

    fn none_seen(alloc: Global) -> HashSet<BpId> {
        HashSet::new(alloc)
    }

    fn read(alloc: Global, seen: &HashSet<BpId>, table: &Table) -> Result<StoreRow, DocFault> {
        let id = required_at::<BpId>(alloc, table, "id")?;
        if seen.contains(&id) {
            return Err(DocFault::wrong(alloc).under(alloc, "id"));
        }
        let meta = metadata_at(alloc, table)?;
        Ok(StoreRow { id, meta })
    }

    fn see(alloc: Global, seen: &mut HashSet<BpId>, row: &StoreRow) -> Result<(), Memory> {
        let id = row.id.copy(alloc)?;
        see_key(seen, id)?;
        Ok(())
    }
}

impl WrittenRow for StoreRow {
    ghost members_of = { store_members };

    ghost is_typed = { has_id };

    ghost follows = { may_follow bytes_eq store_id is_kept_row };

    ghost nesting = { 33 };

    fn write(alloc: Global, row: &StoreRow) -> Result<Table, Memory> {
        let mut table = Table::new(alloc);
        put_at::<BpId>(alloc, &mut table, "id", &row.id)?;
        put_metadata(alloc, &mut table, &row.meta)?;
        Ok(table)
    }

    ghost reads_back = { store_row_read };

    ghost dates = { store_row_dates };

    ghost within = { store_row_within };
}
