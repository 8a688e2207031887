// The target of a detection.
ghost use Rattle.std.specs.Prelude.{◌≤◌, IfErr, IfOk, IsTrue, Ok, Some, length};
ghost use Rattle.cnb_env.specs.Base.{is_named_target};
ghost use Rattle.steps.specs.Causes.{IsAnswer, IsGivenCause};
ghost use Rattle.steps.specs.Outside.{seen};
ghost use Rattle.cnb_detect.specs.Refusals.{cause_of};
ghost use Rattle.cnb_detect.specs.Target.{is_named, reads_target, takes_target};

use crate::refusal::DetectRefusal;
use cnb_toml::Target;
use cnb_world::{Path, World};
use image_files::read_target;
use std::alloc::Global;

/// Where the target of a detection comes from: `<work>/analyzed.toml`, which need not be there, or the caller.
#[derive(Drop)]
pub enum TargetSource {
    Document,
    Given(Target),
}

fn read<W: World>(
    alloc: Global,
    world: &mut W,
    work: &Path,
) -> Result<Option<Target>, DetectRefusal>
    requires { length work.now ≤ 4096 }
    ensures step { reads_target work.now (seen W.World world.old) result (seen W.World world.new) }
    ensures named { IfOk result (λ target. IsTrue (is_named_target target)) }
{
    let target = read_target(alloc, world, work)?;
    Ok(target)
}

fn given(alloc: Global, target: &Target) -> Result<Option<Target>, DetectRefusal>
    ensures answer { IsAnswer cause_of result (Ok (Some target.now)) }
    ensures cause { IfErr result (λ refusal. IsGivenCause (cause_of refusal)) }
{
    Ok(Some(target.copy(alloc)?))
}

/// The target, where it is known. A document is read only where none is given.
pub(crate) fn take_target<W: World>(
    alloc: Global,
    source: &TargetSource,
    world: &mut W,
    work: &Path,
) -> Result<Option<Target>, DetectRefusal>
    requires { length work.now ≤ 4096 }
    ensures step { takes_target source.now work.now (seen W.World world.old) result (seen W.World world.new) }
    ensures named { IsTrue (is_named source.now) → IfOk result (λ target. IsTrue (is_named_target target)) }
{
    match source {
        TargetSource::Document => read(alloc, world, work),
        TargetSource::Given(target) => given(alloc, target),
    }
}
