// `plan.toml`.
ghost use Rattle.std.specs.Prelude.{◌≡◌, true, IfOk, IsTrue, List as Seq, Ok};
ghost use Rattle.std.specs.List.{list_all};
ghost use Rattle.cnb_toml.specs.Document.{document_in};
ghost use Rattle.cnb_toml.specs.Need.{need_members};
ghost use Rattle.cnb_toml.proofs.NeedLaws.{need_dates};
ghost use Rattle.cnb_toml.specs.Reading.{Answers};
ghost use Rattle.run_docs.specs.Plan.{first_name, same_name, need_in, entry_of, entry_in, entries_in, plan_in};
ghost use Rattle.run_docs.specs.Plan.{is_entry, is_plan_doc, has_key_providers, entry_members, plan_members};
ghost use Rattle.run_docs.specs.PlanLaws.{may_follow, entry_need_read, entry_need_within, entry_read, entry_dates};
ghost use Rattle.run_docs.specs.PlanLaws.{entry_within, plan_read, plan_dates, plan_within};

use cnb_toml::{
    DocFault, Key, ListOf, Need, RowForm, RowsOf, TableForm, TableOf, WrittenRow, WrittenTable,
    list_at, metadata_at, put_at, read_document, required_at, value_or, write_document,
};
use cnb_world::{Bytes, List, Memory, Text};
use std::alloc::Global;
use toml::Table;

/// A name with the buildpacks that provide it and all that is required of it (platform.md, "plan.toml (TOML)").
#[derive(Drop)]
pub struct PlanEntry {
    pub name: Text,
    pub providers: List<Key>,
    pub needs: List<Need>,
}

/// The build plan of the chosen group.
pub type PlanDoc = List<PlanEntry>;

/// A requirement of an entry, which has the name of the entry's first one.
struct EntryNeed;

impl RowForm for EntryNeed {
    type Value = Need;

    /// The first requirement's name.
    type Seen = Option<Text>;

    ghost row_in = { need_in };

    ghost keeps = { λ before seen. seen ≡ first_name before };

    fn none_seen(_: Global) -> Option<Text> {
        None
    }

    fn read(alloc: Global, seen: &Option<Text>, table: &Table) -> Result<Need, DocFault> {
        let name = required_at::<Text>(alloc, table, "name")?;
        let name = same_name(alloc, seen, name)?;
        let meta = metadata_at(alloc, table)?;
        Ok(Need { name, meta })
    }

    fn see(alloc: Global, seen: &mut Option<Text>, need: &Need) -> Result<(), Memory> {
        if seen.is_none() {
            *seen = Some(need.name.copy(alloc)?);
        }
        Ok(())
    }
}

impl WrittenRow for EntryNeed {
    ghost members_of = { need_members };

    ghost is_typed = { λ _. true };

    ghost follows = { may_follow };

    ghost nesting = { 33 };

    fn write(alloc: Global, need: &Need) -> Result<Table, Memory> {
        need.to_table(alloc)
    }

    ghost reads_back = { entry_need_read };

    ghost dates = { need_dates };

    ghost within = { entry_need_within };
}

fn same_name(alloc: Global, first: &Option<Text>, name: Text) -> Result<Text, DocFault>
    ensures { Answers result (same_name first.now name) }
{
    match first {
        Some(first) if first.as_str() != name.as_str() => {
            Err(DocFault::wrong(alloc).under(alloc, "name"))
        }
        _ => Ok(name),
    }
}

impl TableForm for PlanEntry {
    type Value = PlanEntry;

    ghost value_in = { entry_in };

    fn read(alloc: Global, table: &Table) -> Result<PlanEntry, DocFault> {
        let providers = list_at::<TableOf<Key>>(alloc, table, "providers")?;
        let needs = value_or::<RowsOf<EntryNeed>>(alloc, table, "requires", List::new(alloc))?;
        entry_of(alloc, providers, needs)
    }
}

impl WrittenTable for PlanEntry {
    ghost members_of = { entry_members };

    ghost is_typed = { has_key_providers };

    ghost is_sound = { is_entry };

    ghost nesting = { 35 };

    fn write(alloc: Global, entry: &PlanEntry) -> Result<Table, Memory> {
        let mut table = Table::new(alloc);
        put_at::<ListOf<TableOf<Key>>>(alloc, &mut table, "providers", &entry.providers)?;
        put_at::<RowsOf<EntryNeed>>(alloc, &mut table, "requires", &entry.needs)?;
        Ok(table)
    }

    ghost reads_back = { entry_read };

    ghost dates = { entry_dates };

    ghost within = { entry_within };
}

fn entry_of(alloc: Global, providers: List<Key>, needs: List<Need>) -> Result<PlanEntry, DocFault>
    ensures { Answers result (entry_of providers needs) }
{
    match needs.as_slice() {
        [first, ..] => Ok(PlanEntry {
            name: first.name.copy(alloc)?,
            providers,
            needs,
        }),
        [] => Err(DocFault::wrong(alloc).under(alloc, "requires")),
    }
}

/// The table of `plan.toml`.
struct PlanTable;

impl TableForm for PlanTable {
    type Value = PlanDoc;

    ghost value_in = { entries_in };

    fn read(alloc: Global, table: &Table) -> Result<PlanDoc, DocFault> {
        list_at::<TableOf<PlanEntry>>(alloc, table, "entries")
    }
}

impl WrittenTable for PlanTable {
    ghost members_of = { plan_members };

    ghost is_typed = { list_all has_key_providers };

    ghost is_sound = { is_plan_doc };

    ghost nesting = { 37 };

    fn write(alloc: Global, entries: &PlanDoc) -> Result<Table, Memory> {
        let mut table = Table::new(alloc);
        put_at::<ListOf<TableOf<PlanEntry>>>(alloc, &mut table, "entries", entries)?;
        Ok(table)
    }

    ghost reads_back = { plan_read };

    ghost dates = { plan_dates };

    ghost within = { plan_within };
}

/// Reads `plan.toml`. The first fault in the order of keys and rows is answered, as `entries.0.requires.1.name`.
pub fn read_plan(alloc: Global, bytes: &[u8]) -> Result<PlanDoc, DocFault>
    ensures { Answers result (plan_in bytes.now) }
{
    read_document::<PlanTable>(alloc, bytes)
}

/// The text of `plan.toml`.
pub fn write_plan(alloc: Global, value: &PlanDoc) -> Result<Bytes, Memory>
    ensures written { IfOk result (λ bytes. IsTrue (is_plan_doc value.now)
        → document_in bytes ≡ Ok (plan_members value.now)) }
    ensures reads_back { IfOk result (λ bytes. IsTrue (is_plan_doc value.now) → plan_in bytes ≡ Ok value.now) }
{
    write_document::<PlanTable>(alloc, value)
}
