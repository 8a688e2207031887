// Build Plans.
ghost use Rattle.std.specs.Prelude.{◌≡◌, ◌∷◌, ◌<◌, length, IfOk, IsTrue};
ghost use Rattle.std.specs.List.{list_all};
ghost use Rattle.toml.specs.View.{table_view};
ghost use Rattle.cnb_toml.specs.Meta.{is_kept};
ghost use Rattle.cnb_toml.specs.Reading.{Answers};
ghost use Rattle.bp_docs.specs.BuildPlan.{provided_in, required_in, option_in, options_in, plan_within_limit};
ghost use Rattle.bp_docs.specs.BuildPlan.{build_plan_in};

use cnb_toml::{Doc, DocFault, Need, TableForm, TableOf, list_at, metadata_at, required_at};
use cnb_world::{LONGEST_DOCUMENT, List, Memory, Text};
use std::alloc::Global;
use toml::Table;

/// One alternative of a Build Plan (buildpack.md, "Build Plan (TOML)"): the names that it provides and what it
/// requires.
#[derive(Drop)]
pub struct PlanOption {
    pub provides: List<Text>,
    pub needs: List<Need>,
}

impl PlanOption {
    pub fn copy(&self, alloc: Global) -> Result<PlanOption, Memory>
        ensures { IfOk result (λ copy. copy ≡ self.now) }
    {
        let provides = copy_names(alloc, self.provides.as_slice())?;
        let needs = copy_needs(alloc, self.needs.as_slice())?;
        Ok(PlanOption { provides, needs })
    }
}

fn copy_names(alloc: Global, names: &[Text]) -> Result<List<Text>, Memory>
    ensures { IfOk result (λ copies. copies ≡ names.now) }
{
    let mut copies = List::new(alloc);
    for name in names {
        copies.push(name.copy(alloc)?)?;
    }
    Ok(copies)
}

fn copy_needs(alloc: Global, needs: &[Need]) -> Result<List<Need>, Memory>
    ensures { IfOk result (λ copies. copies ≡ needs.now) }
{
    let mut copies = List::new(alloc);
    for need in needs {
        copies.push(need.copy(alloc)?)?;
    }
    Ok(copies)
}

/// A name that is provided.
struct Provided;

impl TableForm for Provided {
    type Value = Text;

    ghost value_in = { provided_in };

    fn read(alloc: Global, table: &Table) -> Result<Text, DocFault> {
        required_at::<Text>(alloc, table, "name")
    }
}

/// A name that is required, with its metadata.
struct Required;

impl TableForm for Required {
    type Value = Need;

    ghost value_in = { required_in };

    fn read(alloc: Global, table: &Table) -> Result<Need, DocFault> {
        let name = required_at::<Text>(alloc, table, "name")?;
        let meta = metadata_at(alloc, table)?;
        Ok(Need { name, meta })
    }
}

impl TableForm for PlanOption {
    type Value = PlanOption;

    ghost value_in = { option_in };

    fn read(alloc: Global, table: &Table) -> Result<PlanOption, DocFault> {
        let provides = list_at::<TableOf<Provided>>(alloc, table, "provides")?;
        let needs = list_at::<TableOf<Required>>(alloc, table, "requires")?;
        Ok(PlanOption { provides, needs })
    }
}

/// The alternatives of a table: its own, and each of `or`.
fn options(alloc: Global, table: &Table) -> Result<List<PlanOption>, DocFault>
    ensures { Answers result (options_in (table_view table.now)) }
{
    let first = PlanOption::read(alloc, table)?;
    let others = list_at::<TableOf<PlanOption>>(alloc, table, "or")?;
    Ok(with_first(first, others)?)
}

fn with_first(first: PlanOption, others: List<PlanOption>) -> Result<List<PlanOption>, Memory>
    ensures { IfOk result (λ options. options ≡ first ∷ others) }
{
    let mut options = others.into_vec();
    options.insert(0, first)?;
    Ok(List::from_vec(options))
}

fn plan_within_limit(alloc: Global, bytes: &[u8]) -> Result<List<PlanOption>, DocFault>
    ensures { Answers result (plan_within_limit bytes.now) }
{
    let doc = Doc::read(alloc, bytes)?;
    options(alloc, doc.table())
}

/// Reads a Build Plan (buildpack.md, "Build Plan (TOML)"): the alternative of the top level, then those of `or`. The
/// first fault in the order of keys and lists is answered, as `or.0.requires.1.name`. More than 1,048,576 bytes are
/// Wrong with an empty path, whatever they say.
#[tactic(auto, unfolding(crate::specs::BuildPlan::build_plan_in))]
pub fn read_build_plan(alloc: Global, bytes: &[u8]) -> Result<List<PlanOption>, DocFault>
    ensures reads { Answers result (build_plan_in bytes.now) }
    ensures options { IfOk result (λ options. 0 < length options) }
    ensures kept { IfOk result (λ options. IsTrue
        (list_all (λ option. list_all (λ need. is_kept need.meta) option.needs) options)) }
{
    if bytes.len() > LONGEST_DOCUMENT {
        return Err(DocFault::wrong(alloc));
    }
    plan_within_limit(alloc, bytes)
}
