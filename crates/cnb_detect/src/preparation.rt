// What a detection is made of.
ghost use Rattle.std.specs.Prelude.{◌≡◌, ℕ, List as Seq, IfOk, IsOk, IsTrue};
ghost use Rattle.cnb_env.specs.Base.{is_named_target};
ghost use Rattle.cnb_words.specs.Choice.{KeepsLimits};
ghost use Rattle.order_expand.specs.Check.{checked};
ghost use Rattle.detect_core.specs.Search.{is_short};
ghost use Rattle.steps.specs.Asking.{CountsSpawners};
ghost use Rattle.steps.specs.Causes.{CountsFiles};
ghost use Rattle.steps.specs.Outside.{seen};
ghost use Rattle.cnb_detect.specs.Preparation.{frame_of, prepares};
ghost use Rattle.cnb_detect.specs.Refusals.{cause_of};
ghost use Rattle.cnb_detect.specs.Target.{is_named};

use crate::refusal::DetectRefusal;
use crate::target::{TargetSource, take_target};
use bp_docs::Order;
use cnb_env::{EnvFile, platform_files};
use cnb_toml::Target;
use cnb_words::ChoiceWords;
use cnb_world::{Env, List, Memory, World};
use detect_core::DetectFrame;
use order_expand::{Catalog, check};
use order_files::{read_catalog, read_order_file};
use std::alloc::Global;

/// The order, the buildpacks that it may name, and what all detect children have in common.
#[derive(Drop)]
pub struct Prepared {
    pub order: Order,
    pub catalog: Catalog,
    pub frame: DetectFrame,
}

fn frame(
    alloc: Global,
    options: &ChoiceWords,
    env: &Env,
    target: Option<Target>,
    files: List<EnvFile>,
) -> Result<DetectFrame, Memory>
    ensures { IfOk result (λ frame. frame ≡ frame_of options.now env.now target files) }
{
    Ok(DetectFrame {
        buildpacks: options.buildpacks.copy(alloc)?,
        app: options.app.copy(alloc)?,
        platform: options.platform.copy(alloc)?,
        work: options.work.copy(alloc)?,
        env: env.copy()?,
        files,
        target,
    })
}

/// Reads the order, the buildpacks, the target, unless it is given, and the platform's environment files, and refuses
/// an order that can't be expanded.
pub fn prepare<W: World>(
    alloc: Global,
    source: &TargetSource,
    options: &ChoiceWords,
    env: &Env,
    world: &mut W,
) -> Result<Prepared, DetectRefusal>
    requires { KeepsLimits options.now }
    ensures step { prepares source.now options.now env.now (seen W.World world.old) result (seen W.World world.new) }
    ensures checked { IfOk result (λ prepared. IsOk (checked prepared.catalog prepared.order)) }
    ensures short { IfOk result (λ prepared. IsTrue (is_short prepared.frame)) }
    ensures named { IsTrue (is_named source.now)
        → IfOk result (λ prepared. IsTrue (is_named_target prepared.frame.target)) }
{
    let order = read_order_file(alloc, world, &options.order)?;
    let catalog = read_catalog(alloc, world, &options.buildpacks)?;
    check(alloc, &order, &catalog)?;
    let target = take_target(alloc, source, world, &options.work)?;
    let files = platform_files(alloc, world, &options.platform)?;
    let frame = frame(alloc, options, env, target, files)?;
    Ok(Prepared {
        order,
        catalog,
        frame,
    })
}
