// Asking the members of a group.
ghost use Rattle.std.specs.Prelude.{◌<◌, ◌≤◌, IsTrue, OnOk, OnErr, length, map};
ghost use Rattle.std.specs.List.{filter};
ghost use Rattle.detect_core.specs.Answer.{is_fit};
ghost use Rattle.detect_core.specs.Asking.{unmet, pool_cause, RunsAll, RunsSome};
ghost use Rattle.detect_core.specs.Job.{detect_job};
ghost use Rattle.detect_core.specs.Kept.{keys_of};
ghost use Rattle.detect_core.specs.Search.{is_short};
ghost use Rattle.steps.specs.Asking.{CountsSpawners};
ghost use Rattle.steps.specs.Outside.{faults_of, spawners_seen};

use crate::chosen::{AnswerRow, DetectFrame};
use crate::keeping::{add_answers, keep_answers};
use crate::kept::Kept;
use crate::questions::questions_of;
use crate::side_by_side::run_jobs;
use cnb_world::{List, Spawner};
use order_expand::Member;
use std::alloc::Global;
use std::thread::Threads;
use ticket_pool::PoolFault;

/// Runs the children of those members that are for the target and were not asked before in this call, each once, by
/// spawners side by side. What they answered is kept, and added to the rows.
pub fn ask_group<S: Spawner + Send, R: Threads + Sync>(
    rt: &R,
    alloc: Global,
    spawners: &mut Vec<S>,
    workers: usize,
    frame: &DetectFrame,
    group: &[Member],
    kept: &mut Kept,
    rows: &mut List<AnswerRow>,
) -> Result<(), PoolFault>
    requires spawners { 0 < length spawners.old.items }
    requires workers { 0 < workers }
    requires short { IsTrue (is_short frame.now) }
    requires few { length group.now ≤ 256 }
    ensures all { OnOk result (RunsAll frame.now (unmet (keys_of kept.old)
        (filter (is_fit frame.now.target) group.now))
        (spawners_seen S.Spawner spawners.old.items) (spawners_seen S.Spawner spawners.new.items) kept.old kept.new rows.old rows.new) }
    ensures some { OnErr result (RunsSome (map (detect_job frame.now) (unmet (keys_of kept.old)
        (filter (is_fit frame.now.target) group.now)))
        (spawners_seen S.Spawner spawners.old.items) (spawners_seen S.Spawner spawners.new.items)) }
    ensures faults { CountsSpawners pool_cause result
        (faults_of (spawners_seen S.Spawner spawners.old.items))
        (faults_of (spawners_seen S.Spawner spawners.new.items)) }
{
    let asked = questions_of(alloc, frame, group, kept)?;
    let answers = run_jobs(rt, alloc, spawners, workers, asked.jobs.as_slice())?;
    keep_answers(alloc, kept, asked.keys.as_slice(), answers.as_slice())?;
    add_answers(alloc, rows, asked.keys.as_slice(), answers)?;
    Ok(())
}
