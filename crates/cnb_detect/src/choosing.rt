// The choice of a group and its plan.
ghost use Rattle.std.specs.Prelude.{◌≡◌, ◌<◌, ℕ, IfOk, IsOk, IsTrue, length};
ghost use Rattle.cnb_words.specs.Choice.{KeepsLimits};
ghost use Rattle.order_expand.specs.Check.{checked};
ghost use Rattle.run_docs.specs.Group.{is_group_doc};
ghost use Rattle.run_docs.specs.Plan.{is_plan_doc};
ghost use Rattle.detect_core.specs.Search.{is_short};
ghost use Rattle.steps.specs.Asking.{asks, CountsSpawners};
ghost use Rattle.steps.specs.Causes.{CountsFiles};
ghost use Rattle.steps.specs.Outside.{faults_of, outside, spawners_seen};
ghost use Rattle.cnb_detect.specs.Choice.{as_choice, choice_of, jobs_of, listed_jobs};
ghost use Rattle.cnb_detect.specs.Detects.{chooses};
ghost use Rattle.cnb_detect.specs.Refusals.{cause_of};

use crate::preparation::{Prepared, prepare};
use crate::refusal::DetectRefusal;
use crate::target::TargetSource;
use cnb_words::ChoiceWords;
use cnb_world::{Env, Spawner, World};
use detect_core::{Chosen, detect};
use std::alloc::Global;
use std::thread::Threads;

// Runs the detect children that have to be asked, and chooses by what they answer.
fn choose<S: Spawner + Send, R: Threads + Sync>(
    rt: &R,
    alloc: Global,
    prepared: &Prepared,
    spawners: &mut Vec<S>,
    workers: usize,
) -> Result<Chosen, DetectRefusal>
    requires order { IsOk (checked prepared.now.catalog prepared.now.order) }
    requires short { IsTrue (is_short prepared.now.frame) }
    requires spawners { 0 < length spawners.old.items }
    requires workers { 0 < workers }
    ensures step { asks cause_of (listed_jobs prepared.now) (jobs_of prepared.now) (choice_of prepared.now)
        (spawners_seen S.Spawner spawners.old.items) (as_choice result) (spawners_seen S.Spawner spawners.new.items) }
    ensures written { IfOk result (λ chosen. IsTrue (is_group_doc chosen.group) × IsTrue (is_plan_doc chosen.plan)) }
{
    let chosen = detect(
        rt,
        alloc,
        &prepared.order,
        &prepared.catalog,
        spawners,
        workers,
        &prepared.frame,
    )?;
    Ok(chosen)
}

/// Chooses the first group that passes, and its plan, for this target. Nothing is written (platform.md, "detector").
pub fn choose_group<W: World, S: Spawner + Send, R: Threads + Sync>(
    rt: &R,
    alloc: Global,
    source: &TargetSource,
    options: &ChoiceWords,
    env: &Env,
    world: &mut W,
    spawners: &mut Vec<S>,
) -> Result<Chosen, DetectRefusal>
    requires limits { KeepsLimits options.now }
    requires spawners { 0 < length spawners.old.items }
    ensures steps { chooses source.now options.now env.now
        (outside W.World S.Spawner world.old spawners.old.items)
        (as_choice result)
        (outside W.World S.Spawner world.new spawners.new.items) }
    ensures written { IfOk result (λ chosen. IsTrue (is_group_doc chosen.group) × IsTrue (is_plan_doc chosen.plan)) }
{
    let prepared = prepare(alloc, source, options, env, world)?;
    let chosen = choose(rt, alloc, &prepared, spawners, options.workers)?;
    Ok(chosen)
}
