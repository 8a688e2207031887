// The environment of a detect child.
ghost use Rattle.std.specs.Prelude.{◌≡◌, IfOk};
ghost use Rattle.cnb_env.specs.Base.{with_target};
ghost use Rattle.cnb_env.specs.Buildpack.{buildpack_folder};
ghost use Rattle.detect_core.specs.Job.{build_plan_path, detect_env, given_env};

use crate::chosen::DetectFrame;
use cnb_env::{base_env, platform, set_path, set_target};
use cnb_world::{Env, Memory, Path};
use order_expand::Member;
use std::alloc::Global;

// What was handed in, and the platform's files unless the buildpack clears them.
fn given_env(alloc: Global, frame: &DetectFrame, member: &Member) -> Result<Env, Memory>
    ensures { IfOk result (λ env. env ≡ given_env frame.now member.now) }
{
    let mut env = base_env(alloc, &frame.env)?;
    if !member.clear_env {
        platform(alloc, &mut env, &frame.files)?;
    }
    Ok(env)
}

fn target_env(alloc: Global, frame: &DetectFrame, member: &Member) -> Result<Env, Memory>
    ensures { IfOk result (λ env. env ≡ with_target frame.now.target (given_env frame.now member.now)) }
{
    let mut env = given_env(alloc, frame, member)?;
    set_target(alloc, &mut env, frame.target.as_ref())?;
    Ok(env)
}

/// The environment of a member's child (buildpack.md, "Environment"), by its buildpack's folder and its plan path.
pub fn environment(
    alloc: Global,
    frame: &DetectFrame,
    member: &Member,
    folder: &Path,
    plan: &Path,
) -> Result<Env, Memory>
    requires folder { folder.now ≡ buildpack_folder frame.now.buildpacks member.now.key }
    requires plan { plan.now ≡ build_plan_path frame.now.work member.now.key }
    ensures { IfOk result (λ env. env ≡ detect_env frame.now member.now) }
{
    let mut env = target_env(alloc, frame, member)?;
    set_path(alloc, &mut env, "CNB_BUILDPACK_DIR", folder)?;
    set_path(alloc, &mut env, "CNB_PLATFORM_DIR", &frame.platform)?;
    set_path(alloc, &mut env, "CNB_BUILD_PLAN_PATH", plan)?;
    Ok(env)
}
