// The choice of a group and its plan, with its record.
ghost use Rattle.std.specs.Prelude.{◌<◌, ◌≡◌, Ok, IfErr, IfOk, IsOk, IsTrue, length};
ghost use Rattle.cnb_detect.specs.Choice.{jobs_of, listed_jobs};
ghost use Rattle.cnb_detect.specs.Refusals.{cause_of};
ghost use Rattle.cnb_detect.specs.Target.{is_named};
ghost use Rattle.cnb_env.specs.Base.{is_named_target};
ghost use Rattle.cnb_words.specs.Choice.{KeepsLimits};
ghost use Rattle.detect_core.specs.Recorded.{IsRecorded};
ghost use Rattle.detect_core.specs.Search.{is_short};
ghost use Rattle.order_expand.specs.Check.{checked};
ghost use Rattle.run_docs.specs.Group.{is_group_doc};
ghost use Rattle.run_docs.specs.Plan.{is_plan_doc};
ghost use Rattle.steps.specs.Asking.{asks};
ghost use Rattle.steps.specs.Causes.{IsAnswer, IsGivenCause};
ghost use Rattle.steps.specs.Outside.{Outside, Seen, outside, spawners_seen};
ghost use Rattle.cnb_record.specs.Choosing.{Proves, adds_record, chooses_recorded, finds, found_of, over, record_in};

use cnb_detect::{DetectRefusal, Prepared, TargetSource, prepare};
use cnb_words::ChoiceWords;
use cnb_world::{Bytes, Env, LimitKind, Spawner, World};
use detect_core::{Chosen, Recorded};
use detect_record::{RecordFault, make_record};
use std::alloc::Global;
use std::thread::Threads;

/// A choice, and the bytes of its record.
#[derive(Drop)]
pub struct RecordedChoice {
    pub chosen: Chosen,
    pub bytes: Bytes,
}

// Runs the detect children that have to be asked, and chooses by what they answer.
fn ask<S: Spawner + Send, R: Threads + Sync>(
    rt: &R,
    alloc: Global,
    prepared: &Prepared,
    spawners: &mut Vec<S>,
    workers: usize,
) -> Result<Recorded, DetectRefusal>
    requires order { IsOk (checked prepared.now.catalog prepared.now.order) }
    requires short { IsTrue (is_short prepared.now.frame) }
    requires spawners { 0 < length spawners.old.items }
    requires workers { 0 < workers }
    ensures step { asks cause_of (listed_jobs prepared.now) (jobs_of prepared.now) (found_of prepared.now)
        (spawners_seen S.Spawner spawners.old.items) result (spawners_seen S.Spawner spawners.new.items) }
    ensures written { IfOk result (λ found.
        IsTrue (is_group_doc found.chosen.group) × IsTrue (is_plan_doc found.chosen.plan)) }
    ensures recorded { IfOk result (IsRecorded prepared.now.order prepared.now.catalog prepared.now.frame.target) }
{
    let found = detect_core::detect_recorded(
        rt,
        alloc,
        &prepared.order,
        &prepared.catalog,
        spawners,
        workers,
        &prepared.frame,
    )?;
    Ok(found)
}

// The record of what was found.
fn record_of(alloc: Global, prepared: &Prepared, found: &Recorded) -> Result<Bytes, DetectRefusal>
    requires order { IsOk (checked prepared.now.catalog prepared.now.order) }
    requires named { IsTrue (is_named_target prepared.now.frame.target) }
    requires recorded { IsRecorded prepared.now.order prepared.now.catalog prepared.now.frame.target found.now }
    ensures answer { IsAnswer cause_of result (record_in prepared.now found.now) }
    ensures cause { IfErr result (λ refusal. IsGivenCause (cause_of refusal)) }
    ensures proves { IfOk result (Proves prepared.now found.now) }
{
    match make_record(
        alloc,
        &prepared.order,
        &prepared.catalog,
        &prepared.frame.target,
        found,
    ) {
        Ok(bytes) => Ok(bytes),
        Err(RecordFault::Large) => Err(DetectRefusal::Limit(LimitKind::Record)),
        Err(RecordFault::Memory) => Err(DetectRefusal::Memory),
    }
}

// Adds the record to the choice.
fn with_record(
    alloc: Global,
    prepared: &Prepared,
    found: Recorded,
) -> Result<RecordedChoice, DetectRefusal>
    requires order { IsOk (checked prepared.now.catalog prepared.now.order) }
    requires named { IsTrue (is_named_target prepared.now.frame.target) }
    requires recorded { IsRecorded prepared.now.order prepared.now.catalog prepared.now.frame.target found }
    ensures step { (old : Outside) → adds_record prepared.now found old result old }
    ensures chosen { IfOk result (λ recorded. recorded.chosen ≡ found.chosen) }
{
    let bytes = record_of(alloc, prepared, &found)?;
    Ok(RecordedChoice {
        chosen: found.chosen,
        bytes,
    })
}

// Asks, and adds the record to the choice.
fn find<S: Spawner + Send, R: Threads + Sync>(
    rt: &R,
    alloc: Global,
    prepared: &Prepared,
    spawners: &mut Vec<S>,
    workers: usize,
) -> Result<RecordedChoice, DetectRefusal>
    requires order { IsOk (checked prepared.now.catalog prepared.now.order) }
    requires short { IsTrue (is_short prepared.now.frame) }
    requires named { IsTrue (is_named_target prepared.now.frame.target) }
    requires spawners { 0 < length spawners.old.items }
    requires workers { 0 < workers }
    ensures steps { (world : Seen) → finds prepared.now
        (over world (spawners_seen S.Spawner spawners.old.items))
        result
        (over world (spawners_seen S.Spawner spawners.new.items)) }
    ensures written { IfOk result (λ found.
        IsTrue (is_group_doc found.chosen.group) × IsTrue (is_plan_doc found.chosen.plan)) }
{
    let found = ask(rt, alloc, prepared, spawners, workers)?;
    with_record(alloc, prepared, found)
}

/// Chooses the first group that passes, and its plan, for this target, and makes the record of that. Nothing is written
/// (platform.md, "detector").
pub fn choose_recorded<W: World, S: Spawner + Send, R: Threads + Sync>(
    rt: &R,
    alloc: Global,
    source: &TargetSource,
    options: &ChoiceWords,
    env: &Env,
    world: &mut W,
    spawners: &mut Vec<S>,
) -> Result<RecordedChoice, DetectRefusal>
    requires limits { KeepsLimits options.now }
    requires named { IsTrue (is_named source.now) }
    requires spawners { 0 < length spawners.old.items }
    ensures steps { chooses_recorded source.now options.now env.now
        (outside W.World S.Spawner world.old spawners.old.items)
        result
        (outside W.World S.Spawner world.new spawners.new.items) }
    ensures written { IfOk result (λ found.
        IsTrue (is_group_doc found.chosen.group) × IsTrue (is_plan_doc found.chosen.plan)) }
{
    let prepared = prepare(alloc, source, options, env, world)?;
    find(rt, alloc, &prepared, spawners, options.workers)
}
