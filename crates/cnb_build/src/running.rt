// Running the child that builds a buildpack.
ghost use Rattle.std.specs.List.{All};
ghost use Rattle.cnb_env.specs.Layers.{AreShort, IsOfSets, are_fit_sets, build_env};
ghost use Rattle.cnb_env.specs.declared.layers.Phase.TheVariants.{Build};
ghost use Rattle.steps.specs.Outside.{seen};
ghost use Rattle.steps.specs.Steps.{runs_child};
ghost use Rattle.cnb_build.specs.Builds.{runs_build};
ghost use Rattle.cnb_build.specs.Job.{build_job, files_for};
ghost use Rattle.cnb_build.specs.Places.{HasRoom};
ghost use Rattle.cnb_build.specs.Reading.{reads_files};
ghost use Rattle.cnb_build.specs.Refusals.{cause_of};

use crate::fault::BuildFault;
use crate::frame::BuildFrame;
use crate::job::{build_job, files_for, passed};
use crate::places::Places;
use cnb_env::{LayerSet, build_env};
use cnb_world::{End, Env, List, World};
use run_docs::GroupRow;
use std::alloc::Global;

fn environment<W: World>(
    alloc: Global,
    world: &mut W,
    frame: &BuildFrame,
    base: &Env,
    clear_env: bool,
    done: &List<LayerSet>,
) -> Result<Env, BuildFault>
    requires { All AreShort done.now }
    ensures step { reads_files (IsOfSets done.now) (λ tree. are_fit_sets Build tree done.now)
        (build_env done.now (files_for frame.now clear_env) base.now)
        (seen W.World world.old) result (seen W.World world.new) }
{
    let files = files_for(frame, clear_env);
    let env = build_env(alloc, world, base, done, files)?;
    Ok(env)
}

#[tactic(auto, unfolding(steps::specs::Steps::runs_child), using(steps::proofs::StepLemmas::allowed_by, crate::proofs::BuildSteps::child_counted))]
fn run<W: World>(
    alloc: Global,
    world: &mut W,
    frame: &BuildFrame,
    places: &Places,
    env: Env,
) -> Result<End, BuildFault>
    requires { HasRoom places.now }
    ensures step { runs_child cause_of (build_job frame.now places.now env)
        (seen W.World world.old) result (seen W.World world.new) }
{
    let job = build_job(alloc, frame, places, env)?;
    let end = world.run(&job)?;
    Ok(end)
}

/// Runs the child of a buildpack, in the environment that the layers of those before it give.
pub(crate) fn run_build<W: World>(
    alloc: Global,
    world: &mut W,
    frame: &BuildFrame,
    base: &Env,
    row: &GroupRow,
    places: &Places,
    clear_env: bool,
    done: &List<LayerSet>,
) -> Result<(), BuildFault>
    requires room { HasRoom places.now }
    requires short { All AreShort done.now }
    ensures step { runs_build frame.now base.now row.now places.now clear_env done.now
        (seen W.World world.old) result (seen W.World world.new) }
{
    let env = environment(alloc, world, frame, base, clear_env, done)?;
    let end = run(alloc, world, frame, places, env)?;
    passed(alloc, &row.key, &end)
}
