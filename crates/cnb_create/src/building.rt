// The builds of the chosen group.
ghost use Rattle.std.specs.Prelude.{◌≡◌, ◌≤◌, ℕ, List as Seq, IfOk, IsTrue, length};
ghost use Rattle.cnb_build.specs.Places as places;
ghost use Rattle.cnb_build.specs.Reading.{reads_files};
ghost use Rattle.cnb_build.specs.Refusals as building;
ghost use Rattle.cnb_env.specs.Files.{IsOfFolder, is_fit_platform, platform_env, platform_files_in};
ghost use Rattle.cnb_words.specs.Create.{KeepsLimits};
ghost use Rattle.image_docs.specs.Analyzed.{is_analyzed};
ghost use Rattle.image_files.specs.Target.{target_of};
ghost use Rattle.run_docs.specs.Plan.{is_plan_doc};
ghost use Rattle.steps.specs.Outside.{seen};
ghost use Rattle.steps.specs.Steps.{map_err};
ghost use Rattle.cnb_create.specs.Creates.{build_frame, builds_group};
ghost use Rattle.cnb_create.specs.declared.refusal.CreateRefusal.TheVariants as refused;

use crate::refusal::CreateRefusal;
use crate::target::target_of;
use cnb_build::{BuildFault, BuildFrame, build};
use cnb_env::{EnvFile, platform_files};
use cnb_words::CreateWords;
use cnb_world::{Env, List, Memory, Path, World};
use image_docs::Analyzed;
use run_docs::{GroupDoc, PlanDoc};
use std::alloc::Global;

fn read_files<W: World>(
    alloc: Global,
    world: &mut W,
    platform: &Path,
) -> Result<List<EnvFile>, BuildFault>
    requires { length platform.now ≤ 4096 }
    ensures step { reads_files (IsOfFolder (platform_env platform.now)) (is_fit_platform platform.now)
        (platform_files_in platform.now) (seen W.World world.old) result (seen W.World world.new) }
{
    let files = platform_files(alloc, world, platform)?;
    Ok(files)
}

#[tactic(auto, using(crate::proofs::TargetLemmas::target_named))]
fn build_frame(
    alloc: Global,
    analyzed: &Analyzed,
    options: &CreateWords,
    env: &Env,
    files: List<EnvFile>,
) -> Result<BuildFrame, Memory>
    requires limits { KeepsLimits options.now }
    requires named { IsTrue (is_analyzed analyzed.now) }
    ensures frame { IfOk result (λ frame. frame ≡ build_frame (target_of analyzed.now) options.now env.now files) }
    ensures limits { IfOk result places.KeepsLimits }
{
    let target = target_of(alloc, analyzed)?;
    Ok(BuildFrame {
        buildpacks: options.detect.buildpacks.copy(alloc)?,
        app: options.detect.app.copy(alloc)?,
        platform: options.detect.platform.copy(alloc)?,
        layers: options.layers.copy(alloc)?,
        work: options.detect.work.copy(alloc)?,
        env: env.copy()?,
        files,
        target: Some(target),
    })
}

fn build_all<W: World>(
    alloc: Global,
    analyzed: &Analyzed,
    options: &CreateWords,
    env: &Env,
    world: &mut W,
    group: &GroupDoc,
    plan: PlanDoc,
) -> Result<(), BuildFault>
    requires limits { KeepsLimits options.now }
    requires named { IsTrue (is_analyzed analyzed.now) }
    requires plan { IsTrue (is_plan_doc plan) }
    ensures steps { builds_group (target_of analyzed.now) options.now env.now
        (record { group = group.now; plan = plan }) (seen W.World world.old) result (seen W.World world.new) }
{
    let files = read_files(alloc, world, &options.detect.platform)?;
    let frame = build_frame(alloc, analyzed, options, env, files)?;
    build(alloc, world, &frame, group, plan)?;
    Ok(())
}

/// Reads the platform's environment files, and builds the buildpacks of the group in order, for the run image that was
/// analyzed.
pub(crate) fn build_group<W: World>(
    alloc: Global,
    analyzed: &Analyzed,
    options: &CreateWords,
    env: &Env,
    world: &mut W,
    group: &GroupDoc,
    plan: PlanDoc,
) -> Result<(), CreateRefusal>
    requires limits { KeepsLimits options.now }
    requires named { IsTrue (is_analyzed analyzed.now) }
    requires plan { IsTrue (is_plan_doc plan) }
    ensures steps { map_err refused.Build
        (builds_group (target_of analyzed.now) options.now env.now (record { group = group.now; plan = plan }))
        (seen W.World world.old) result (seen W.World world.new) }
{
    build_all(alloc, analyzed, options, env, world, group, plan)?;
    Ok(())
}
