// The command `detect`.
ghost use Rattle.std.specs.Prelude.{◌≡◌, ◌<◌, length};
ghost use Rattle.cnb_words.specs.Choice.{KeepsLimits};
ghost use Rattle.steps.specs.Asking.{CountsSpawners};
ghost use Rattle.steps.specs.Causes.{CountsFiles};
ghost use Rattle.steps.specs.Outside.{faults_of, outside, spawners_seen};
ghost use Rattle.cnb_detect.specs.Detects.{detects};
ghost use Rattle.cnb_detect.specs.Outcome.{ComesTo};
ghost use Rattle.cnb_detect.specs.Refusals.{cause_of};
ghost use Rattle.cnb_detect.specs.declared.target.TargetSource.TheVariants as target;

use crate::choosing::choose_group;
use crate::documents::write_choice;
use crate::refusal::DetectRefusal;
use crate::report::choice_text;
use crate::target::TargetSource;
use cnb_words::ChoiceWords;
use cnb_world::{Env, Spawner, Text, World};
use std::alloc::Global;
use std::thread::Threads;

/// Chooses the first group that passes, writes it with its plan, and gives the text to be printed (platform.md,
/// "detector").
pub fn detect<W: World, S: Spawner + Send, R: Threads + Sync>(
    rt: &R,
    alloc: Global,
    options: &ChoiceWords,
    env: &Env,
    world: &mut W,
    spawners: &mut Vec<S>,
) -> Result<Text, DetectRefusal>
    requires limits { KeepsLimits options.now }
    requires spawners { 0 < length spawners.old.items }
    // It does its steps in their order.
    ensures steps { detects target.Document options.now env.now
        (outside W.World S.Spawner world.old spawners.old.items)
        result
        (outside W.World S.Spawner world.new spawners.new.items) }
    // So it comes to the first trial that passes, by the files and by what its children answered, however many workers
    // ran them and in whatever order they finished, or to its refusal.
    ensures outcome { ComesTo target.Document options.now env.now
        (outside W.World S.Spawner world.old spawners.old.items)
        result
        (outside W.World S.Spawner world.new spawners.new.items) }
{
    // The proof takes from this call what each path keeps to.
    let _work = options.work.as_str();
    let chosen = choose_group(
        rt,
        alloc,
        &TargetSource::Document,
        options,
        env,
        world,
        spawners,
    )?;
    let text = choice_text(alloc, &chosen.group, chosen.plan.as_slice().len())?;
    write_choice(alloc, world, &options.work, &chosen.group, &chosen.plan)?;
    Ok(text)
}
