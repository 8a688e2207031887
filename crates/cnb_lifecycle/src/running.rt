// What the commands do that use neither caches nor what was exported, with their refusals as the lifecycle's.
ghost use Rattle.std.specs.Prelude.{◌≡◌, ◌<◌, List as Seq, ℕ, IsTrue, None, Some, length};
ghost use Rattle.cnb_words.specs.Analyze as analyze_words;
ghost use Rattle.cnb_words.specs.Base as base_words;
ghost use Rattle.cnb_words.specs.Build as build_words;
ghost use Rattle.cnb_words.specs.Check as check_words;
ghost use Rattle.cnb_words.specs.Choice as choice_words;
ghost use Rattle.cnb_words.specs.Detect.{KeepsLimits};
ghost use Rattle.cnb_words.specs.Prune as prune_words;
ghost use Rattle.cnb_words.specs.Rebase as rebase_words;
ghost use Rattle.cnb_words.specs.RecordPath.{is_record_path};
ghost use Rattle.cnb_words.specs.Show as show_words;
ghost use Rattle.cnb_words.specs.Verify as verify_words;
ghost use Rattle.steps.specs.Outside.{faults_of, outside, seen, spawners_seen};
ghost use Rattle.cnb_build.specs.Command.{commands_build};
ghost use Rattle.cnb_rebase.specs.Bases.{bases_command};
ghost use Rattle.cnb_rebase.specs.Rebases.{rebases_command};
ghost use Rattle.cnb_rebase.specs.Shows.{shows_command};
ghost use Rattle.cnb_record.specs.Checks.{checks};
ghost use Rattle.cnb_restore.specs.Commands.{analyzes_command};
ghost use Rattle.store_prune.specs.Prunes.{prunes_command};
ghost use Rattle.store_prune.specs.Verifies.{verifies_command};
ghost use Rattle.cnb_lifecycle.specs.Detecting.{detects_into, detects_words};
ghost use Rattle.cnb_lifecycle.specs.Ends.{CountsChild};
ghost use Rattle.cnb_lifecycle.specs.Faults.{cause_of, of_detect};
ghost use Rattle.cnb_lifecycle.specs.PhaseFaults.{of_base, of_build, of_check, of_image, of_prune, of_rebase};
ghost use Rattle.cnb_lifecycle.specs.PhaseFaults.{of_restore, of_verify};
ghost use Rattle.cnb_lifecycle.specs.Telling.{tells};

use crate::answer::Answer;
use crate::refusal::Refusal;
use cnb_build::build_command;
use cnb_detect::detect;
use cnb_rebase::{base_command, rebase_command, show_command};
use cnb_record::{check, detect_recorded};
use cnb_restore::analyze_command;
use cnb_words::{
    AnalyzeWords, BaseWords, BuildWords, CheckWords, ChoiceWords, DetectWords, PruneWords,
    RebaseWords, ShowWords, VerifyWords,
};
use cnb_world::{Env, Path, Spawner, World};
use std::alloc::Global;
use std::thread::Threads;
use store_prune::{prune_command, verify_command};

// Chooses a group without a record.
fn run_choice<W: World, S: Spawner + Send, R: Threads + Sync>(
    rt: &R,
    alloc: Global,
    options: &ChoiceWords,
    env: &Env,
    world: &mut W,
    spawners: &mut Vec<S>,
) -> Result<Answer, Refusal>
    requires limits { choice_words.KeepsLimits options.now }
    requires spawners { 0 < length spawners.old.items }
    ensures steps { tells Answer.Printed of_detect (detects_into None options.now env.now)
        (outside W.World S.Spawner world.old spawners.old.items)
        result
        (outside W.World S.Spawner world.new spawners.new.items) }
{
    let text = detect(rt, alloc, options, env, world, spawners)?;
    Ok(Answer::Printed(text))
}

// Chooses a group, and leaves the record of that.
fn run_recorded<W: World, S: Spawner + Send, R: Threads + Sync>(
    rt: &R,
    alloc: Global,
    options: &ChoiceWords,
    path: &Path,
    env: &Env,
    world: &mut W,
    spawners: &mut Vec<S>,
) -> Result<Answer, Refusal>
    requires limits { choice_words.KeepsLimits options.now }
    requires place { IsTrue (is_record_path options.now.work path.now) }
    requires spawners { 0 < length spawners.old.items }
    ensures steps { tells Answer.Printed of_detect (detects_into (Some path.now) options.now env.now)
        (outside W.World S.Spawner world.old spawners.old.items)
        result
        (outside W.World S.Spawner world.new spawners.new.items) }
{
    let text = detect_recorded(rt, alloc, options, path, env, world, spawners)?;
    Ok(Answer::Printed(text))
}

/// Does what the options of `detect` ask for.
pub(crate) fn run_detect<W: World, S: Spawner + Send, R: Threads + Sync>(
    rt: &R,
    alloc: Global,
    options: &DetectWords,
    env: &Env,
    world: &mut W,
    spawners: &mut Vec<S>,
) -> Result<Answer, Refusal>
    requires limits { KeepsLimits options.now }
    requires spawners { 0 < length spawners.old.items }
    ensures steps { tells Answer.Printed of_detect (detects_words options.now env.now)
        (outside W.World S.Spawner world.old spawners.old.items)
        result
        (outside W.World S.Spawner world.new spawners.new.items) }
{
    match &options.proof_path {
        None => run_choice(rt, alloc, &options.choice, env, world, spawners),
        Some(path) => run_recorded(rt, alloc, &options.choice, path, env, world, spawners),
    }
}

/// Does what the options of `check` ask for.
pub(crate) fn run_check<W: World>(
    alloc: Global,
    options: &CheckWords,
    world: &mut W,
) -> Result<Answer, Refusal>
    requires limits { check_words.KeepsLimits options.now }
    ensures steps { tells Answer.Printed of_check (checks options.now)
        (seen W.World world.old) result (seen W.World world.new) }
{
    let text = check(alloc, options, world)?;
    Ok(Answer::Printed(text))
}

/// Does what the options of `build` ask for.
pub(crate) fn run_build<W: World>(
    alloc: Global,
    options: &BuildWords,
    env: &Env,
    world: &mut W,
) -> Result<Answer, Refusal>
    requires limits { build_words.KeepsLimits options.now }
    ensures steps { tells Answer.Printed of_build (commands_build options.now env.now)
        (seen W.World world.old) result (seen W.World world.new) }
{
    let text = build_command(alloc, options, env, world)?;
    Ok(Answer::Printed(text))
}

/// Does what the options of `rebase` ask for.
pub(crate) fn run_rebase<W: World>(
    alloc: Global,
    options: &RebaseWords,
    world: &mut W,
) -> Result<Answer, Refusal>
    requires limits { rebase_words.KeepsLimits options.now }
    ensures steps { tells Answer.Printed of_rebase (rebases_command options.now)
        (seen W.World world.old) result (seen W.World world.new) }
{
    let text = rebase_command(alloc, options, world)?;
    Ok(Answer::Printed(text))
}

/// Does what the options of `base` ask for.
pub(crate) fn run_base<W: World>(
    alloc: Global,
    options: &BaseWords,
    world: &mut W,
) -> Result<Answer, Refusal>
    requires limits { base_words.KeepsLimits options.now }
    ensures steps { tells Answer.Printed of_base (bases_command options.now)
        (seen W.World world.old) result (seen W.World world.new) }
{
    let text = base_command(alloc, options, world)?;
    Ok(Answer::Printed(text))
}

/// Does what the options of `show` ask for.
pub(crate) fn run_show<W: World>(
    alloc: Global,
    options: &ShowWords,
    world: &mut W,
) -> Result<Answer, Refusal>
    requires limits { show_words.KeepsLimits options.now }
    ensures steps { tells Answer.Printed of_image (shows_command options.now)
        (seen W.World world.old) result (seen W.World world.new) }
{
    let text = show_command(alloc, options, world)?;
    Ok(Answer::Printed(text))
}

/// Does what the options of `prune` ask for.
pub(crate) fn run_prune<W: World>(
    alloc: Global,
    options: &PruneWords,
    world: &mut W,
) -> Result<Answer, Refusal>
    requires limits { prune_words.KeepsLimits options.now }
    ensures steps { tells Answer.Printed of_prune (prunes_command options.now)
        (seen W.World world.old) result (seen W.World world.new) }
{
    let text = prune_command(alloc, options, world)?;
    Ok(Answer::Printed(text))
}

/// Does what the options of `verify` ask for.
pub(crate) fn run_verify<W: World>(
    alloc: Global,
    options: &VerifyWords,
    world: &mut W,
) -> Result<Answer, Refusal>
    requires limits { verify_words.KeepsLimits options.now }
    ensures steps { tells Answer.Printed of_verify (verifies_command options.now)
        (seen W.World world.old) result (seen W.World world.new) }
{
    let text = verify_command(alloc, options, world)?;
    Ok(Answer::Printed(text))
}

/// Does what the options of `analyze` ask for.
pub(crate) fn run_analyze<W: World>(
    alloc: Global,
    options: &AnalyzeWords,
    world: &mut W,
) -> Result<Answer, Refusal>
    requires limits { analyze_words.KeepsLimits options.now }
    ensures steps { tells Answer.Printed of_restore (analyzes_command options.now)
        (seen W.World world.old) result (seen W.World world.new) }
{
    let text = analyze_command(alloc, options, world)?;
    Ok(Answer::Printed(text))
}
