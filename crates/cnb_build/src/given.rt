// What a build is given by files.
ghost use Rattle.std.specs.Prelude.{◌≡◌, ◌≤◌, IfErr, IfOk, IsTrue, length};
ghost use Rattle.cnb_words.specs.Build.{KeepsLimits as WithinLimits};
ghost use Rattle.cnb_env.specs.Base.{is_named_target};
ghost use Rattle.cnb_env.specs.Files.{IsOfFolder, is_fit_platform, platform_env, platform_files_in};
ghost use Rattle.image_files.specs.Target.{analyzed_document, is_fit_target, target_at};
ghost use Rattle.run_docs.specs.Group.{group_in};
ghost use Rattle.run_docs.specs.Plan.{is_plan_doc, plan_in};
ghost use Rattle.steps.specs.Causes.{IsAnswer, IsGivenCause, Only};
ghost use Rattle.steps.specs.Outside.{seen};
ghost use Rattle.cnb_build.specs.Given.{documents_of, frame_of, known_apis, needed, reads_given, reads_needed};
ghost use Rattle.cnb_build.specs.Places.{KeepsLimits};
ghost use Rattle.cnb_build.specs.Reading.{reads_files};
ghost use Rattle.cnb_build.specs.Refusals.{cause_of};

use crate::fault::BuildFault;
use crate::frame::BuildFrame;
use crate::reading::{read_document, value_at};
use cnb_env::{EnvFile, platform_files};
use cnb_toml::{DocFault, Target};
use cnb_words::BuildWords;
use cnb_world::{Bytes, Env, List, Memory, Path, World};
use run_docs::{GroupDoc, PlanDoc, foreign_among, read_group, read_plan};
use std::alloc::Global;

/// The chosen group, its plan, and what all builds have in common.
#[derive(Drop)]
pub struct Given {
    pub group: GroupDoc,
    pub plan: PlanDoc,
    pub frame: BuildFrame,
}

/// The documents of a work folder that a build reads.
#[derive(Drop)]
pub(crate) struct Documents {
    pub(crate) group: Path,
    pub(crate) plan: Path,
}

fn documents_of(alloc: Global, work: &Path) -> Result<Documents, Memory>
    requires { length work.now ≤ 4096 }
    ensures { IfOk result (λ documents. documents ≡ documents_of work.now) }
{
    Ok(Documents {
        group: work.below(alloc, "group.toml")?,
        plan: work.below(alloc, "plan.toml")?,
    })
}

fn group_of(alloc: Global, path: &Path, found: Option<Bytes>) -> Result<GroupDoc, BuildFault>
    ensures answer { IsAnswer cause_of result (needed group_in path.now found) }
    ensures cause { IfErr result (λ fault. IsGivenCause (cause_of fault)) }
{
    match found {
        Some(bytes) => value_at(alloc, path, read_group(alloc, bytes.as_slice())),
        None => Err(BuildFault::Document(path.copy(alloc)?, DocFault::Absent)),
    }
}

#[tactic(auto, using(crate::proofs::PlanRead::kept_plan))]
fn plan_of(alloc: Global, path: &Path, found: Option<Bytes>) -> Result<PlanDoc, BuildFault>
    ensures answer { IsAnswer cause_of result (needed plan_in path.now found) }
    ensures cause { IfErr result (λ fault. IsGivenCause (cause_of fault)) }
    ensures kept { IfOk result (λ plan. IsTrue (is_plan_doc plan)) }
{
    match found {
        Some(bytes) => value_at(alloc, path, read_plan(alloc, bytes.as_slice())),
        None => Err(BuildFault::Document(path.copy(alloc)?, DocFault::Absent)),
    }
}

fn read_group_at<W: World>(
    alloc: Global,
    world: &mut W,
    path: &Path,
) -> Result<GroupDoc, BuildFault>
    ensures step { reads_needed group_in path.now (seen W.World world.old) result (seen W.World world.new) }
{
    let found = read_document(alloc, world, path)?;
    group_of(alloc, path, found)
}

fn read_plan_at<W: World>(alloc: Global, world: &mut W, path: &Path) -> Result<PlanDoc, BuildFault>
    ensures step { reads_needed plan_in path.now (seen W.World world.old) result (seen W.World world.new) }
    ensures kept { IfOk result (λ plan. IsTrue (is_plan_doc plan)) }
{
    let found = read_document(alloc, world, path)?;
    plan_of(alloc, path, found)
}

// Refuses a group that has a buildpack of another Buildpack API.
fn check_apis(alloc: Global, group: &GroupDoc) -> Result<(), BuildFault>
    ensures answer { IsAnswer cause_of result (known_apis group.now) }
    ensures cause { IfErr result (λ fault. IsGivenCause (cause_of fault)) }
{
    match foreign_among(group.as_slice()) {
        Some(row) => Err(BuildFault::Api(row.api.copy(alloc)?)),
        None => Ok(()),
    }
}

fn read_target<W: World>(
    alloc: Global,
    world: &mut W,
    work: &Path,
) -> Result<Option<Target>, BuildFault>
    requires { length work.now ≤ 4096 }
    ensures step { reads_files (Only (analyzed_document work.now)) (is_fit_target work.now) (target_at work.now)
        (seen W.World world.old) result (seen W.World world.new) }
    ensures named { IfOk result (λ target. IsTrue (is_named_target target)) }
{
    let target = image_files::read_target(alloc, world, work)?;
    Ok(target)
}

fn read_files<W: World>(
    alloc: Global,
    world: &mut W,
    platform: &Path,
) -> Result<List<EnvFile>, BuildFault>
    requires { length platform.now ≤ 4096 }
    ensures step { reads_files (IsOfFolder (platform_env platform.now)) (is_fit_platform platform.now)
        (platform_files_in platform.now)
        (seen W.World world.old) result (seen W.World world.new) }
{
    let files = platform_files(alloc, world, platform)?;
    Ok(files)
}

fn frame_of(
    alloc: Global,
    options: &BuildWords,
    env: &Env,
    target: Option<Target>,
    files: List<EnvFile>,
) -> Result<BuildFrame, Memory>
    ensures { IfOk result (λ frame. frame ≡ frame_of options.now env.now target files) }
{
    Ok(BuildFrame {
        buildpacks: options.buildpacks.copy(alloc)?,
        app: options.app.copy(alloc)?,
        platform: options.platform.copy(alloc)?,
        layers: options.layers.copy(alloc)?,
        work: options.work.copy(alloc)?,
        env: env.copy()?,
        files,
        target,
    })
}

/// Reads the group, the plan, the target, which is none where `analyzed.toml` isn't there, and the platform's
/// environment files. A group with a buildpack of another Buildpack API is refused before the plan is read.
pub(crate) fn read_given<W: World>(
    alloc: Global,
    options: &BuildWords,
    env: &Env,
    world: &mut W,
) -> Result<Given, BuildFault>
    requires { WithinLimits options.now }
    ensures step { reads_given options.now env.now (seen W.World world.old) result (seen W.World world.new) }
    ensures kept { IfOk result (λ given. IsTrue (is_plan_doc given.plan)) }
    ensures limits { IfOk result (λ given. KeepsLimits given.frame) }
{
    let documents = documents_of(alloc, &options.work)?;
    let group = read_group_at(alloc, world, &documents.group)?;
    check_apis(alloc, &group)?;
    let plan = read_plan_at(alloc, world, &documents.plan)?;
    let target = read_target(alloc, world, &options.work)?;
    let files = read_files(alloc, world, &options.platform)?;
    let frame = frame_of(alloc, options, env, target, files)?;
    Ok(Given { group, plan, frame })
}
