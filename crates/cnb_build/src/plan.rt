// The Buildpack Plan of a buildpack, and what its build leaves pending.
ghost use Rattle.std.specs.Prelude.{◌≡◌, ◌++◌, IfErr, IfOk, IsTrue, OnOk, not};
ghost use Rattle.std.specs.List.{filter};
ghost use Rattle.std.specs.Option.{option_copied};
ghost use Rattle.run_docs.specs.BuildpackPlan.{is_bp_plan};
ghost use Rattle.run_docs.specs.Plan.{is_plan_doc};
ghost use Rattle.steps.specs.Causes.{IsAnswer, IsGivenCause};
ghost use Rattle.cnb_build.specs.Plan.{is_closed, is_in_plan, pending_after, plan_for, provides, unknown_among};
ghost use Rattle.cnb_build.specs.Refusals.{cause_of};

use crate::fault::BuildFault;
use cnb_toml::{Key, Need};
use cnb_world::{List, Memory, Text};
use plan_resolve::has_name;
use run_docs::{BpPlan, BuildToml, PlanDoc, PlanEntry};
use std::alloc::Global;

fn provides(entry: &PlanEntry, key: &Key) -> bool
    ensures { result ≡ provides entry.now key.now }
{
    entry
        .providers
        .as_slice()
        .iter()
        .any(|provider| *key == *provider)
}

fn push_needs(alloc: Global, plan: &mut List<Need>, needs: &[Need]) -> Result<(), Memory>
    ensures { OnOk result (plan.new ≡ plan.old ++ needs.now) }
{
    for need in needs {
        plan.push(need.copy(alloc)?)?;
    }
    Ok(())
}

/// What is required of the pending entries that a buildpack provides (buildpack.md, "Buildpack Plan (TOML)").
pub(crate) fn plan_for(alloc: Global, key: &Key, pending: &PlanDoc) -> Result<BpPlan, Memory>
    requires { IsTrue (is_plan_doc pending.now) }
    ensures needs { IfOk result (λ needs. needs ≡ plan_for key.now pending.now) }
    ensures kept { IfOk result (λ needs. IsTrue (is_bp_plan needs)) }
{
    let mut needs = List::new(alloc);
    for entry in pending.as_slice() {
        if provides(entry, key) {
            push_needs(alloc, &mut needs, entry.needs.as_slice())?;
        }
    }
    Ok(needs)
}

fn is_in_plan(key: &Key, pending: &[PlanEntry], name: &str) -> bool
    ensures { result ≡ is_in_plan key.now pending.now name.now }
{
    pending.iter().any(|entry| provides(entry, key) && name == entry.name.as_str())
}

fn unknown_among<'a>(key: &Key, pending: &[PlanEntry], unmet: &'a [Text]) -> Option<&'a Text>
    ensures { option_copied result ≡ unknown_among key.now pending.now unmet.now }
{
    unmet
        .iter()
        .find(|name| !is_in_plan(key, pending, name.as_str()))
}

fn is_closed(key: &Key, unmet: &[Text], entry: &PlanEntry) -> bool
    ensures { result ≡ is_closed key.now unmet.now entry.now }
{
    provides(entry, key) && !has_name(unmet, entry.name.as_str())
}

fn keep_pending(
    alloc: Global,
    key: &Key,
    unmet: &[Text],
    pending: PlanDoc,
) -> Result<PlanDoc, Memory>
    ensures { IfOk result (λ kept. kept ≡ filter (λ entry. not (is_closed key.now unmet.now entry)) pending) }
{
    let mut kept = List::new(alloc);
    for entry in pending.into_vec() {
        if !is_closed(key, unmet, &entry) {
            kept.push(entry)?;
        }
    }
    Ok(kept)
}

/// The entries that are pending behind the build of a buildpack which left these names unmet (buildpack.md, "build.toml
/// (TOML)").
pub(crate) fn pending_after(
    alloc: Global,
    key: &Key,
    unmet: &BuildToml,
    pending: PlanDoc,
) -> Result<PlanDoc, BuildFault>
    requires { IsTrue (is_plan_doc pending) }
    ensures answer { IsAnswer cause_of result (pending_after key.now unmet.now pending) }
    ensures cause { IfErr result (λ fault. IsGivenCause (cause_of fault)) }
    ensures kept { IfOk result (λ kept. IsTrue (is_plan_doc kept)) }
{
    if let Some(name) = unknown_among(key, pending.as_slice(), unmet.as_slice()) {
        return Err(BuildFault::UnknownUnmet {
            id: key.id.copy(alloc)?,
            name: name.copy(alloc)?,
        });
    }
    let kept = keep_pending(alloc, key, unmet.as_slice(), pending)?;
    Ok(kept)
}
