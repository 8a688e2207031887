// The builds of a group.
ghost use Rattle.std.specs.Prelude.{◌≡◌, ℕ, List as Seq, IsTrue, true};
ghost use Rattle.std.specs.List.{list_all};
ghost use Rattle.cnb_env.specs.Base.{base_env};
ghost use Rattle.run_docs.specs.Plan.{is_plan_doc};
ghost use Rattle.steps.specs.Each.{for_each};
ghost use Rattle.steps.specs.Keeping.{Keeps};
ghost use Rattle.steps.specs.Outside.{seen};
ghost use Rattle.cnb_build.specs.Builds.{builds, builds_one, nothing_built};
ghost use Rattle.cnb_build.specs.Outcome.{RunsBuilds, spares};
ghost use Rattle.cnb_build.specs.Places.{KeepsLimits};

use crate::fault::BuildFault;
use crate::frame::{BuildFrame, Built};
use crate::one::build_one;
use cnb_env::base_env;
use cnb_world::{Env, List, World};
use run_docs::{GroupDoc, GroupRow, PlanDoc};
use std::alloc::Global;

#[tactic(auto, using(crate::proofs::PlaceLemmas::no_sets_short))]
fn build_rows<W: World>(
    alloc: Global,
    world: &mut W,
    frame: &BuildFrame,
    base: &Env,
    group: &[GroupRow],
    plan: PlanDoc,
) -> Result<Built, BuildFault>
    requires plan { IsTrue (is_plan_doc plan) }
    requires limits { KeepsLimits frame.now }
    ensures step { for_each (builds_one frame.now base.now) group.now (nothing_built plan)
        (seen W.World world.old) result (seen W.World world.new) }
{
    let mut built = Built {
        pending: plan,
        done: List::new(alloc),
    };
    for row in group {
        built = build_one(alloc, world, frame, base, row, built)?;
    }
    Ok(built)
}

/// Builds the buildpacks of a group in order (buildpack.md, "Phase #3: Build"). The paths of the frame have at most
/// 4,096 bytes. After a refusal the buildpacks before the refused one are built, and some of its own steps are done.
pub fn build<W: World>(
    alloc: Global,
    world: &mut W,
    frame: &BuildFrame,
    group: &GroupDoc,
    plan: PlanDoc,
) -> Result<(), BuildFault>
    requires plan { IsTrue (is_plan_doc plan) }
    requires limits { KeepsLimits frame.now }
    ensures steps { builds frame.now plan group.now (seen W.World world.old) result (seen W.World world.new) }
    // So the children are those of the first buildpacks in order, and all of them where all are built.
    ensures runs { RunsBuilds frame.now plan group.now (seen W.World world.old) result (seen W.World world.new) }
    // A path that no build touches stands, where the children left what stood there.
    ensures others { (path : Seq ℕ) → list_all (spares path frame.now) group.now ≡ true
        → Keeps path (seen W.World world.old) (seen W.World world.new) }
{
    let base = base_env(alloc, &frame.env)?;
    let _built = build_rows(alloc, world, frame, &base, group.as_slice(), plan)?;
    Ok(())
}
