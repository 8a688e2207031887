// The command `detect` where a record is asked for.
ghost use Rattle.std.specs.Prelude.{◌≡◌, ◌≤◌, ◌<◌, IfErr, IfSome, IsTrue, OnErr, OnOk, false, length};
ghost use Rattle.std.specs.Option.{option_map};
ghost use Rattle.cnb_detect.specs.Refusals.{cause_of};
ghost use Rattle.cnb_detect.specs.declared.target.TargetSource.TheVariants as target;
ghost use Rattle.cnb_words.specs.Choice.{KeepsLimits};
ghost use Rattle.cnb_words.specs.RecordPath.{is_record_path};
ghost use Rattle.cnb_world.specs.Calls.{MayMisuse};
ghost use Rattle.cnb_world.specs.Path.{beside, is_path};
ghost use Rattle.cnb_world.specs.Tree.{is_root};
ghost use Rattle.cnb_world.specs.Whole.{LeavesPart, can_write, written};
ghost use Rattle.run_docs.specs.Group.{is_group_doc};
ghost use Rattle.run_docs.specs.Plan.{is_plan_doc};
ghost use Rattle.steps.specs.Causes.{CountsFiles, IsWriteCause};
ghost use Rattle.steps.specs.Outside.{outside, seen};
ghost use Rattle.cnb_record.specs.DetectsRecorded.{detects_recorded, writes_recorded};
ghost use Rattle.cnb_record.specs.Outcome.{ComesToRecorded};

use crate::choosing::{RecordedChoice, choose_recorded};
use cnb_detect::{DetectRefusal, TargetSource, choice_text, write_choice};
use cnb_words::ChoiceWords;
use cnb_world::{Env, FileFault, Path, Spawner, Text, World, write_whole};
use std::alloc::Global;
use std::thread::Threads;

// Writes the record, whole.
fn write_record<W: World>(
    alloc: Global,
    world: &mut W,
    path: &Path,
    bytes: &[u8],
) -> Result<(), DetectRefusal>
    requires beside { IsTrue (is_path (beside path.now)) }
    requires not_root { is_root path.now ≡ false }
    ensures ok { OnOk result (W.tree world.new ≡ option_map (written path.now bytes.now) (W.tree world.old)) }
    ensures fit { OnOk result (IfSome (W.tree world.old) (λ files. IsTrue (can_write path.now files))) }
    ensures err { OnErr result (LeavesPart (W.tree world.old) (W.tree world.new) path.now bytes.now) }
    ensures cause { IfErr result (λ refusal. IsWriteCause path.now (cause_of refusal)) }
    ensures files { CountsFiles cause_of result (W.file_faults world.old) (W.file_faults world.new) }
    ensures children { W.child_faults world.new ≡ W.child_faults world.old }
    ensures runs { W.runs world.new ≡ W.runs world.old }
    ensures misused { MayMisuse (option_map (can_write path.now) (W.tree world.old))
        (W.misused world.old) (W.misused world.new) }
{
    match write_whole(alloc, world, path, bytes) {
        Ok(()) => Ok(()),
        Err(FileFault::Failed) => Err(DetectRefusal::File(path.copy(alloc)?)),
        Err(FileFault::Memory) => Err(DetectRefusal::Memory),
    }
}

// Writes the documents of a choice and its record, and gives the text to be printed.
fn write_recorded<W: World>(
    alloc: Global,
    world: &mut W,
    work: &Path,
    path: &Path,
    found: &RecordedChoice,
) -> Result<Text, DetectRefusal>
    requires group { IsTrue (is_group_doc found.now.chosen.group) }
    requires plan { IsTrue (is_plan_doc found.now.chosen.plan) }
    requires short { length work.now ≤ 4096 }
    requires beside { IsTrue (is_path (beside path.now)) }
    requires not_root { is_root path.now ≡ false }
    ensures steps { writes_recorded work.now path.now found.now
        (seen W.World world.old) result (seen W.World world.new) }
{
    let entries = found.chosen.plan.as_slice().len();
    let text = choice_text(alloc, &found.chosen.group, entries)?;
    write_choice(alloc, world, work, &found.chosen.group, &found.chosen.plan)?;
    write_record(alloc, world, path, found.bytes.as_slice())?;
    Ok(text)
}

/// Does what `detect` does, and leaves the record of it besides: it is made before anything is written, and written
/// last.
pub fn detect_recorded<W: World, S: Spawner + Send, R: Threads + Sync>(
    rt: &R,
    alloc: Global,
    options: &ChoiceWords,
    path: &Path,
    env: &Env,
    world: &mut W,
    spawners: &mut Vec<S>,
) -> Result<Text, DetectRefusal>
    requires limits { KeepsLimits options.now }
    requires place { IsTrue (is_record_path options.now.work path.now) }
    requires spawners { 0 < length spawners.old.items }
    // It does its steps in their order.
    ensures steps { detects_recorded target.Document options.now path.now env.now
        (outside W.World S.Spawner world.old spawners.old.items)
        result
        (outside W.World S.Spawner world.new spawners.new.items) }
    // So it comes to what `detect` comes to, and then to the record, which proves the choice; or to its refusal.
    ensures outcome { ComesToRecorded target.Document options.now path.now env.now
        (outside W.World S.Spawner world.old spawners.old.items)
        result
        (outside W.World S.Spawner world.new spawners.new.items) }
{
    // The proof takes from this call what each path keeps to.
    let _work = options.work.as_str();
    let found = choose_recorded(
        rt,
        alloc,
        &TargetSource::Document,
        options,
        env,
        world,
        spawners,
    )?;
    write_recorded(alloc, world, &options.work, path, &found)
}
