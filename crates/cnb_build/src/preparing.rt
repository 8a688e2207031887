// What is done before a child runs.
ghost use Rattle.std.specs.Prelude.{◌≡◌, IsTrue, Ok, false};
ghost use Rattle.cnb_world.specs.Path.{beside, is_path};
ghost use Rattle.cnb_world.specs.Tree.{is_root};
ghost use Rattle.run_docs.specs.BuildpackPlan.{bp_plan_in};
ghost use Rattle.run_docs.specs.Plan.{is_plan_doc};
ghost use Rattle.steps.specs.Outside.{seen};
ghost use Rattle.steps.specs.Steps.{makes_folder, writes};
ghost use Rattle.cnb_build.specs.Builds.{prepares};
ghost use Rattle.cnb_build.specs.Places.{HasRoom};
ghost use Rattle.cnb_build.specs.Plan.{plan_for};
ghost use Rattle.cnb_build.specs.Refusals.{cause_of};

use crate::descriptor::read_descriptor;
use crate::fault::BuildFault;
use crate::places::Places;
use crate::plan::plan_for;
use cnb_world::{Path, World, write_whole};
use doc_files::blamed;
use run_docs::{GroupRow, PlanDoc, write_bp_plan};
use std::alloc::Global;

#[tactic(auto, unfolding(steps::specs::Steps::makes_folder), using(steps::proofs::StepLemmas::allowed_by, crate::proofs::BuildSteps::call_counted))]
fn make_folder<W: World>(alloc: Global, world: &mut W, path: &Path) -> Result<(), BuildFault>
    ensures step { makes_folder cause_of path.now (seen W.World world.old) result (seen W.World world.new) }
{
    match world.make_folder(path) {
        Ok(()) => Ok(()),
        Err(fault) => Err(BuildFault::from(blamed(alloc, path, fault))),
    }
}

fn write_at<W: World>(
    alloc: Global,
    world: &mut W,
    path: &Path,
    bytes: &[u8],
) -> Result<(), BuildFault>
    requires beside { IsTrue (is_path (beside path.now)) }
    requires not_root { is_root path.now ≡ false }
    ensures step { writes cause_of path.now (λ written. written ≡ bytes.now)
        (seen W.World world.old) result (seen W.World world.new) }
{
    match write_whole(alloc, world, path, bytes) {
        Ok(()) => Ok(()),
        Err(fault) => Err(BuildFault::from(blamed(alloc, path, fault))),
    }
}

// Writes the Buildpack Plan.
fn write_plan<W: World>(
    alloc: Global,
    world: &mut W,
    row: &GroupRow,
    places: &Places,
    pending: &PlanDoc,
) -> Result<(), BuildFault>
    requires plan { IsTrue (is_plan_doc pending.now) }
    requires room { HasRoom places.now }
    ensures step { writes cause_of places.now.plan
        (λ bytes. bp_plan_in bytes ≡ Ok (plan_for row.now.key pending.now))
        (seen W.World world.old) result (seen W.World world.new) }
{
    let needs = plan_for(alloc, &row.key, pending)?;
    let bytes = write_bp_plan(alloc, &needs)?;
    write_at(alloc, world, &places.plan, bytes.as_slice())
}

/// Reads the descriptor, makes the folder of layers and writes the Buildpack Plan. It answers whether the buildpack
/// clears the platform's variables.
pub(crate) fn prepare<W: World>(
    alloc: Global,
    world: &mut W,
    row: &GroupRow,
    places: &Places,
    pending: &PlanDoc,
) -> Result<bool, BuildFault>
    requires plan { IsTrue (is_plan_doc pending.now) }
    requires room { HasRoom places.now }
    ensures step { prepares row.now places.now pending.now
        (seen W.World world.old) result (seen W.World world.new) }
{
    let clear_env = read_descriptor(alloc, world, &places.descriptor)?;
    make_folder(alloc, world, &places.layers)?;
    write_plan(alloc, world, row, places, pending)?;
    Ok(clear_env)
}
