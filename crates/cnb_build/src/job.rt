// The child that builds a buildpack.
ghost use Rattle.std.specs.Prelude.{◌≡◌, ◌≤◌, ◌∷◌, [], IfErr, IfOk, OnOk, codes, length};
ghost use Rattle.std.specs.Option.{option_copied};
ghost use Rattle.cnb_world.specs.Path.{joined};
ghost use Rattle.steps.specs.Causes.{IsAnswer, IsGivenCause};
ghost use Rattle.cnb_build.specs.Job.{build_job, files_for, passed_by, with_own};
ghost use Rattle.cnb_build.specs.Places.{HasRoom};
ghost use Rattle.cnb_build.specs.Refusals.{cause_of};

use crate::fault::BuildFault;
use crate::frame::BuildFrame;
use crate::places::Places;
use cnb_env::{EnvFile, set_path, set_target};
use cnb_toml::Key;
use cnb_world::{ChildJob, End, Env, List, Memory, Path, Text};
use std::alloc::Global;

/// The platform's files, unless the buildpack clears them (buildpack.md, "Environment").
pub(crate) fn files_for(frame: &BuildFrame, clear_env: bool) -> Option<&List<EnvFile>>
    ensures { option_copied result ≡ files_for frame.now clear_env }
{
    if clear_env { None } else { Some(&frame.files) }
}

fn set_own(alloc: Global, frame: &BuildFrame, places: &Places, env: &mut Env) -> Result<(), Memory>
    ensures { OnOk result (env.new ≡ with_own frame.now places.now env.old) }
{
    set_target(alloc, env, frame.target.as_ref())?;
    set_path(alloc, env, "CNB_BUILDPACK_DIR", &places.buildpack)?;
    set_path(alloc, env, "CNB_PLATFORM_DIR", &frame.platform)?;
    set_path(alloc, env, "CNB_LAYERS_DIR", &places.layers)?;
    set_path(alloc, env, "CNB_BP_PLAN_PATH", &places.plan)?;
    Ok(())
}

fn program(alloc: Global, buildpack: &Path) -> Result<Text, Memory>
    requires { length buildpack.now ≤ 8192 }
    ensures { IfOk result (λ program. program ≡ joined (joined buildpack.now (codes "bin")) (codes "build")) }
{
    let bin = buildpack.below(alloc, "bin")?;
    let program = bin.below(alloc, "build")?;
    Text::of(alloc, program.as_str())
}

fn arguments(alloc: Global, frame: &BuildFrame, places: &Places) -> Result<List<Text>, Memory>
    ensures { IfOk result (λ args. args ≡ places.now.layers ∷ frame.now.platform ∷ places.now.plan ∷ []) }
{
    let mut args = List::new(alloc);
    args.push(Text::of(alloc, places.layers.as_str())?)?;
    args.push(Text::of(alloc, frame.platform.as_str())?)?;
    args.push(Text::of(alloc, places.plan.as_str())?)?;
    Ok(args)
}

/// The child, in an environment without the lifecycle's own variables (buildpack.md, "Build").
pub(crate) fn build_job(
    alloc: Global,
    frame: &BuildFrame,
    places: &Places,
    mut env: Env,
) -> Result<ChildJob, Memory>
    requires { HasRoom places.now }
    ensures { IfOk result (λ job. job ≡ build_job frame.now places.now env) }
{
    set_own(alloc, frame, places, &mut env)?;
    let program = program(alloc, &places.buildpack)?;
    let args = arguments(alloc, frame, places)?;
    let dir = frame.app.copy(alloc)?;
    Ok(ChildJob {
        program,
        args,
        env,
        dir,
        side: false,
    })
}

/// Whether the child passed; it did only with the code 0.
pub(crate) fn passed(alloc: Global, key: &Key, end: &End) -> Result<(), BuildFault>
    ensures answer { IsAnswer cause_of result (passed_by key.now end.now) }
    ensures cause { IfErr result (λ fault. IsGivenCause (cause_of fault)) }
{
    match end.code {
        Some(0) => Ok(()),
        code => Err(BuildFault::BuildFailed {
            id: key.id.copy(alloc)?,
            code,
        }),
    }
}
