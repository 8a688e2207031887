// The Buildpack Plan.
ghost use Rattle.std.specs.Prelude.{◌≡◌, true, IfOk, IsTrue, Ok};
ghost use Rattle.cnb_toml.specs.Document.{document_in};
ghost use Rattle.cnb_toml.specs.Need.{need_in, is_kept_need, need_members};
ghost use Rattle.cnb_toml.specs.Reading.{Answers};
ghost use Rattle.cnb_toml.proofs.NeedLaws.{need_read, need_dates, need_within};
ghost use Rattle.run_docs.specs.BuildpackPlan.{needs_in, bp_plan_in, is_bp_plan, bp_plan_members};
ghost use Rattle.run_docs.specs.BuildpackPlanLaws.{bp_plan_read, bp_plan_dates, bp_plan_within};

use cnb_toml::{
    DocFault, ListOf, Need, TableForm, TableOf, WrittenTable, list_at, put_at, read_document,
    write_document,
};
use cnb_world::{Bytes, List, Memory};
use std::alloc::Global;
use toml::Table;

/// What a buildpack is to provide (buildpack.md, "Buildpack Plan (TOML)").
pub type BpPlan = List<Need>;

/// A table of `entries`.
struct Entry;

impl TableForm for Entry {
    type Value = Need;

    ghost value_in = { need_in };

    fn read(alloc: Global, table: &Table) -> Result<Need, DocFault> {
        <Need as TableForm>::read(alloc, table)
    }
}

impl WrittenTable for Entry {
    ghost members_of = { need_members };

    ghost is_typed = { λ _. true };

    ghost is_sound = { is_kept_need };

    ghost nesting = { 33 };

    fn write(alloc: Global, need: &Need) -> Result<Table, Memory> {
        need.to_table(alloc)
    }

    ghost reads_back = { need_read };

    ghost dates = { need_dates };

    ghost within = { need_within };
}

/// The table of a Buildpack Plan.
struct Entries;

impl TableForm for Entries {
    type Value = BpPlan;

    ghost value_in = { needs_in };

    fn read(alloc: Global, table: &Table) -> Result<BpPlan, DocFault> {
        list_at::<TableOf<Entry>>(alloc, table, "entries")
    }
}

impl WrittenTable for Entries {
    ghost members_of = { bp_plan_members };

    ghost is_typed = { λ _. true };

    ghost is_sound = { is_bp_plan };

    ghost nesting = { 35 };

    fn write(alloc: Global, plan: &BpPlan) -> Result<Table, Memory> {
        let mut table = Table::new(alloc);
        put_at::<ListOf<TableOf<Entry>>>(alloc, &mut table, "entries", plan)?;
        Ok(table)
    }

    ghost reads_back = { bp_plan_read };

    ghost dates = { bp_plan_dates };

    ghost within = { bp_plan_within };
}

/// Reads a Buildpack Plan. The first fault in the order of keys and entries is answered, as `entries.1.name`.
pub fn read_bp_plan(alloc: Global, bytes: &[u8]) -> Result<BpPlan, DocFault>
    ensures { Answers result (bp_plan_in bytes.now) }
{
    read_document::<Entries>(alloc, bytes)
}

/// The text of a Buildpack Plan.
pub fn write_bp_plan(alloc: Global, value: &BpPlan) -> Result<Bytes, Memory>
    ensures written { IfOk result (λ bytes. IsTrue (is_bp_plan value.now)
        → document_in bytes ≡ Ok (bp_plan_members value.now)) }
    ensures reads_back { IfOk result (λ bytes. IsTrue (is_bp_plan value.now) → bp_plan_in bytes ≡ Ok value.now) }
{
    write_document::<Entries>(alloc, value)
}
