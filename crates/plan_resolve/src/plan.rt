// The plan of what a trial keeps.
ghost use Rattle.std.specs.Prelude.{◌≡◌, ◌++◌, IfOk, OnOk, map};
ghost use Rattle.std.specs.List.{filter, flat_map};
ghost use Rattle.std.specs.Str.{bytes_eq};
ghost use Rattle.plan_resolve.specs.Trials.{has_name};
ghost use Rattle.plan_resolve.specs.Plan.{names_of, plan_entry, plan_of};

use crate::kept_rows::KeptRow;
use crate::pruning::has_name;
use cnb_toml::{Key, Need, ascending};
use cnb_world::{List, Memory, Text};
use run_docs::{PlanDoc, PlanEntry};
use std::alloc::Global;

fn add_names<'a>(names: &mut Vec<&'a str>, row: &KeptRow<'a>) -> Result<(), Memory>
    ensures { OnOk result (map (λ name. name.now) names.new.items
        ≡ map (λ name. name.now) names.old.items ++ names_of row.now) }
{
    for name in row.provides() {
        names.push(name.as_str())?;
    }
    for need in row.needs() {
        names.push(need.name.as_str())?;
    }
    Ok(())
}

/// All names that are provided or required.
fn all_names<'a>(alloc: Global, kept: &[KeptRow<'a>]) -> Result<Vec<&'a str>, Memory>
    ensures { IfOk result (λ names. map (λ name. name.now) names.items ≡ flat_map names_of kept.now) }
{
    let mut names = Vec::new(alloc);
    for row in kept {
        add_names(&mut names, row)?;
    }
    Ok(names)
}

/// The buildpacks that provide a name.
fn providers(alloc: Global, kept: &[KeptRow], name: &str) -> Result<List<Key>, Memory>
    ensures { IfOk result (λ keys. keys ≡ map (λ k. k.key) (filter (λ k. has_name k.row.provides name.now) kept.now)) }
{
    let mut keys = List::new(alloc);
    for row in kept {
        if has_name(row.provides(), name) {
            keys.push(row.key().copy(alloc)?)?;
        }
    }
    Ok(keys)
}

fn add_needs(
    alloc: Global,
    found: &mut List<Need>,
    needs: &[Need],
    name: &str,
) -> Result<(), Memory>
    ensures { OnOk result (found.new ≡ found.old ++ filter (λ need. bytes_eq need.name name.now) needs.now) }
{
    for need in needs {
        if need.name.as_str() == name {
            found.push(need.copy(alloc)?)?;
        }
    }
    Ok(())
}

/// All that is required of a name.
fn requirements(alloc: Global, kept: &[KeptRow], name: &str) -> Result<List<Need>, Memory>
    ensures { IfOk result (λ needs. needs
        ≡ flat_map (λ k. filter (λ need. bytes_eq need.name name.now) k.row.needs) kept.now) }
{
    let mut needs = List::new(alloc);
    for row in kept {
        add_needs(alloc, &mut needs, row.needs(), name)?;
    }
    Ok(needs)
}

fn plan_entry(alloc: Global, kept: &[KeptRow], name: &str) -> Result<PlanEntry, Memory>
    ensures { IfOk result (λ entry. entry ≡ plan_entry kept.now name.now) }
{
    Ok(PlanEntry {
        name: Text::of(alloc, name)?,
        providers: providers(alloc, kept, name)?,
        needs: requirements(alloc, kept, name)?,
    })
}

fn plan_entries(alloc: Global, kept: &[KeptRow], names: &[&str]) -> Result<PlanDoc, Memory>
    ensures { IfOk result (λ entries. entries ≡ map (plan_entry kept.now) (map (λ name. name.now) names.now)) }
{
    let mut entries = List::new(alloc);
    for name in names {
        entries.push(plan_entry(alloc, kept, name)?)?;
    }
    Ok(entries)
}

/// The plan of the buildpacks that a trial keeps.
pub fn plan(alloc: Global, kept: &[KeptRow]) -> Result<PlanDoc, Memory>
    ensures { IfOk result (λ plan. plan ≡ plan_of kept.now) }
{
    let met = all_names(alloc, kept)?;
    let names = ascending(alloc, met)?;
    plan_entries(alloc, kept, names.as_slice())
}
