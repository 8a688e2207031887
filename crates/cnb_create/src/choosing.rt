// The choice of a group.
ghost use Rattle.std.specs.Prelude.{◌≡◌, ◌<◌, IfOk, IsTrue, length};
ghost use Rattle.cnb_detect.specs.Choice.{as_choice};
ghost use Rattle.cnb_detect.specs.Detects.{chooses};
ghost use Rattle.cnb_detect.specs.declared.target.TargetSource.TheVariants.{Given};
ghost use Rattle.cnb_words.specs.Choice.{KeepsLimits};
ghost use Rattle.image_files.specs.Target.{target_of};
ghost use Rattle.run_docs.specs.Group.{is_group_doc};
ghost use Rattle.run_docs.specs.Plan.{is_plan_doc};
ghost use Rattle.steps.specs.Outside.{outside};
ghost use Rattle.steps.specs.Steps.{map_err};
ghost use Rattle.cnb_create.specs.Creates.{chooses_group};
ghost use Rattle.cnb_create.specs.declared.refusal.CreateRefusal.TheVariants as refused;

use crate::refusal::CreateRefusal;
use crate::target::target_of;
use cnb_detect::{DetectRefusal, TargetSource, choose_group, write_choice};
use cnb_words::ChoiceWords;
use cnb_world::{Env, Spawner, World};
use detect_core::Chosen;
use image_docs::Analyzed;
use std::alloc::Global;
use std::thread::Threads;

// Chooses the first group that passes, for the run image that was analyzed.
fn choose_for<W: World, S: Spawner + Send, R: Threads + Sync>(
    rt: &R,
    alloc: Global,
    analyzed: &Analyzed,
    options: &ChoiceWords,
    env: &Env,
    world: &mut W,
    spawners: &mut Vec<S>,
) -> Result<Chosen, DetectRefusal>
    requires limits { KeepsLimits options.now }
    requires spawners { 0 < length spawners.old.items }
    ensures steps { chooses (Given (target_of analyzed.now)) options.now env.now
        (outside W.World S.Spawner world.old spawners.old.items)
        (as_choice result)
        (outside W.World S.Spawner world.new spawners.new.items) }
    ensures written { IfOk result (λ chosen. IsTrue (is_group_doc chosen.group) × IsTrue (is_plan_doc chosen.plan)) }
{
    let target = target_of(alloc, analyzed)?;
    let source = TargetSource::Given(target);
    choose_group(rt, alloc, &source, options, env, world, spawners)
}

/// Chooses the first group that passes, for the run image that was analyzed, and writes it with its plan into the work
/// folder.
pub(crate) fn choose<W: World, S: Spawner + Send, R: Threads + Sync>(
    rt: &R,
    alloc: Global,
    analyzed: &Analyzed,
    options: &ChoiceWords,
    env: &Env,
    world: &mut W,
    spawners: &mut Vec<S>,
) -> Result<Chosen, CreateRefusal>
    requires limits { KeepsLimits options.now }
    requires spawners { 0 < length spawners.old.items }
    ensures steps { map_err refused.Detect (chooses_group (target_of analyzed.now) options.now env.now)
        (outside W.World S.Spawner world.old spawners.old.items)
        (as_choice result)
        (outside W.World S.Spawner world.new spawners.new.items) }
    ensures group { IfOk result (λ chosen. IsTrue (is_group_doc chosen.group)) }
    ensures plan { IfOk result (λ chosen. IsTrue (is_plan_doc chosen.plan)) }
{
    let chosen = choose_for(rt, alloc, analyzed, options, env, world, spawners)?;
    write_choice(alloc, world, &options.work, &chosen.group, &chosen.plan)?;
    Ok(chosen)
}
