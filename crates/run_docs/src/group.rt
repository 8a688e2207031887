// `group.toml`.
ghost use Rattle.std.specs.Prelude.{◌≡◌, IfOk, IsTrue, Ok, Err, refl, if◌then◌else◌};
ghost use Rattle.std.specs.HashSet.{contains};
ghost use Rattle.std.specs.List.{list_all};
ghost use Rattle.std.specs.Option.{option_copied};
ghost use Rattle.std.specs.Str.{bytes_eq};
ghost use Rattle.cnb_toml.specs.Distinct.{is_new, HasKeysOf};
ghost use Rattle.cnb_toml.specs.Document.{document_in};
ghost use Rattle.cnb_toml.specs.Reading.{Answers};
ghost use Rattle.cnb_toml.specs.WrittenLaws.{zero_within};
ghost use Rattle.run_docs.specs.Group.{foreign_among, row_id, row_in, rows_in, group_in, is_row, is_group_doc};
ghost use Rattle.run_docs.specs.Group.{row_members, group_members};
ghost use Rattle.run_docs.specs.GroupLaws.{row_read, group_read, group_dates, group_within};

use cnb_toml::{
    BpId, BpVersion, DocFault, Key, RowForm, RowsOf, TableForm, WrittenRow, WrittenTable,
    is_served, put_at, read_document, required_at, see_key, value_or, write_document,
};
use cnb_world::{Bytes, List, Memory, Text};
use std::alloc::Global;
use std::collections::HashSet;
use toml::Table;

/// A buildpack of the chosen group (platform.md, "group.toml (TOML)").
#[derive(Drop)]
pub struct GroupRow {
    pub key: Key,
    pub api: Text,
}

/// The chosen group, in order.
pub type GroupDoc = List<GroupRow>;

impl RowForm for GroupRow {
    type Value = GroupRow;

    /// The ids of the rows before.
    type Seen = HashSet<BpId>;

    ghost row_in = { row_in };

    ghost keeps = { λ before seen. HasKeysOf bytes_eq row_id before seen };

    fn none_seen(alloc: Global) -> HashSet<BpId> {
        HashSet::new(alloc)
    }

    fn read(alloc: Global, seen: &HashSet<BpId>, table: &Table) -> Result<GroupRow, DocFault> {
        let id = required_at::<BpId>(alloc, table, "id")?;
        if seen.contains(&id) {
            return Err(DocFault::wrong(alloc).under(alloc, "id"));
        }
        let version = required_at::<BpVersion>(alloc, table, "version")?;
        let api = required_at::<Text>(alloc, table, "api")?;
        Ok(GroupRow {
            key: Key { id, version },
            api,
        })
    }

    fn see(alloc: Global, seen: &mut HashSet<BpId>, row: &GroupRow) -> Result<(), Memory> {
        let id = row.key.id.copy(alloc)?;
        see_key(seen, id)?;
        Ok(())
    }
}

impl WrittenRow for GroupRow {
    ghost members_of = { row_members };

    ghost is_typed = { is_row };

    ghost follows = { is_new bytes_eq row_id };

    ghost nesting = { 0 };

    fn write(alloc: Global, row: &GroupRow) -> Result<Table, Memory> {
        let mut table = Table::new(alloc);
        put_at::<BpId>(alloc, &mut table, "id", &row.key.id)?;
        put_at::<BpVersion>(alloc, &mut table, "version", &row.key.version)?;
        put_at::<Text>(alloc, &mut table, "api", &row.api)?;
        Ok(table)
    }

    ghost reads_back = { row_read };

    ghost dates = { λ row. refl };

    ghost within = { λ before row new. zero_within 0 };
}

/// The table of `group.toml`.
pub struct GroupTable;

impl TableForm for GroupTable {
    type Value = GroupDoc;

    ghost value_in = { rows_in };

    fn read(alloc: Global, table: &Table) -> Result<GroupDoc, DocFault> {
        value_or::<RowsOf<GroupRow>>(alloc, table, "group", List::new(alloc))
    }
}

impl WrittenTable for GroupTable {
    ghost members_of = { group_members };

    ghost is_typed = { list_all is_row };

    ghost is_sound = { is_group_doc };

    ghost nesting = { 2 };

    fn write(alloc: Global, rows: &GroupDoc) -> Result<Table, Memory> {
        let mut table = Table::new(alloc);
        put_at::<RowsOf<GroupRow>>(alloc, &mut table, "group", rows)?;
        Ok(table)
    }

    ghost reads_back = { group_read };

    ghost dates = { group_dates };

    ghost within = { group_within };
}

/// The first buildpack of a group whose Buildpack API is not served.
pub fn foreign_among(group: &[GroupRow]) -> Option<&GroupRow>
    ensures { option_copied result ≡ foreign_among group.now }
{
    group.iter().find(|row| !is_served(row.api.as_str()))
}

/// Reads `group.toml`. The first fault in the order of keys and rows is answered, as `group.1.id`.
pub fn read_group(alloc: Global, bytes: &[u8]) -> Result<GroupDoc, DocFault>
    ensures { Answers result (group_in bytes.now) }
{
    read_document::<GroupTable>(alloc, bytes)
}

/// The text of `group.toml`.
pub fn write_group(alloc: Global, value: &GroupDoc) -> Result<Bytes, Memory>
    ensures written { IfOk result (λ bytes. IsTrue (is_group_doc value.now)
        → document_in bytes ≡ Ok (group_members value.now)) }
    ensures reads_back { IfOk result (λ bytes. IsTrue (is_group_doc value.now) → group_in bytes ≡ Ok value.now) }
{
    write_document::<GroupTable>(alloc, value)
}
