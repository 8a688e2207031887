// The detection over spawners.
ghost use Rattle.std.specs.Prelude.{◌≡◌, ◌<◌, [], List as Seq, IfOk, IsOk, IsTrue, length};
ghost use Rattle.cnb_world.specs.Runs.{Ran};
ghost use Rattle.order_expand.specs.Check.{checked};
ghost use Rattle.order_expand.specs.Groups.{listed_groups};
ghost use Rattle.run_docs.specs.Group.{is_group_doc};
ghost use Rattle.run_docs.specs.Plan.{is_plan_doc};
ghost use Rattle.detect_core.specs.Answer.{says, build_plan};
ghost use Rattle.detect_core.specs.Detection.{first_trial, asked_keys, has_erred};
ghost use Rattle.detect_core.specs.Search.{DetectsAs, RunsAsked, end_cause, is_short};
ghost use Rattle.detect_core.specs.Recorded.{AreRecordedBy, IsRecorded, chosen_of};
ghost use Rattle.detect_core.specs.Searching.{AreWithin, IsRecordedSearch, IsSearch};
ghost use Rattle.steps.specs.Asking.{AskedBy, CountsSpawners};
ghost use Rattle.steps.specs.Outside.{faults_of, spawners_seen};

use crate::asking::ask_group;
use crate::chosen::{AnswerRow, Chosen, DetectEnd, DetectFrame, Recorded};
use crate::ending::end_of;
use crate::judging::judge;
use crate::kept::Kept;
use bp_docs::Order;
use cnb_world::{List, Spawner};
use order_expand::{Catalog, Walk};
use std::alloc::Global;
use std::thread::Threads;

/// Chooses the first group and plan that pass (buildpack.md, "Phase #1: Detection"). The children of a group are run by
/// spawners side by side, as many as there are workers.
pub fn detect<S: Spawner + Send, R: Threads + Sync>(
    rt: &R,
    alloc: Global,
    order: &Order,
    catalog: &Catalog,
    spawners: &mut Vec<S>,
    workers: usize,
    frame: &DetectFrame,
) -> Result<Chosen, DetectEnd>
    requires order { IsOk (checked catalog.now order.now) }
    requires spawners { 0 < length spawners.old.items }
    requires workers { 0 < workers }
    requires short { IsTrue (is_short frame.now) }

    // However many workers run the children, and in whatever order they finish: the answer is that of the first trial
    // that passes, by what they answered.
    ensures detects { (finished : Seq Ran)
        → AskedBy finished (spawners_seen S.Spawner spawners.old.items) (spawners_seen S.Spawner spawners.new.items)
        → DetectsAs result (first_trial (says frame.now.target build_plan finished) catalog.now order.now)
        (asked_keys frame.now.target (says frame.now.target build_plan finished) catalog.now order.now)
        (has_erred frame.now.target (says frame.now.target build_plan finished) catalog.now order.now) }
    // All spawners together run exactly the children that have to be asked, each once; after a failure some of those
    // that the order lists for the target, each at most once. Each answers as its spawner says beforehand.
    ensures asked { RunsAsked frame.now catalog.now order.now
        (spawners_seen S.Spawner spawners.old.items) result (spawners_seen S.Spawner spawners.new.items) }
    // What was chosen can be written and read back.
    ensures written { IfOk result (λ chosen. IsTrue (is_group_doc chosen.group) × IsTrue (is_plan_doc chosen.plan)) }
    ensures faults { CountsSpawners end_cause result
        (faults_of (spawners_seen S.Spawner spawners.old.items))
        (faults_of (spawners_seen S.Spawner spawners.new.items)) }
{
    let found = detect_recorded(rt, alloc, order, catalog, spawners, workers, frame);
    without_answers(found)
}

fn without_answers(found: Result<Recorded, DetectEnd>) -> Result<Chosen, DetectEnd>
    ensures { result ≡ chosen_of found }
{
    match found {
        Ok(found) => Ok(found.chosen),
        Err(end) => Err(end),
    }
}

/// Chooses as `detect` does, and answers what the children that were asked answered besides, in the order of asking.
pub fn detect_recorded<S: Spawner + Send, R: Threads + Sync>(
    rt: &R,
    alloc: Global,
    order: &Order,
    catalog: &Catalog,
    spawners: &mut Vec<S>,
    workers: usize,
    frame: &DetectFrame,
) -> Result<Recorded, DetectEnd>
    requires order { IsOk (checked catalog.now order.now) }
    requires spawners { 0 < length spawners.old.items }
    requires workers { 0 < workers }
    requires short { IsTrue (is_short frame.now) }
    ensures detects { (finished : Seq Ran)
        → AskedBy finished (spawners_seen S.Spawner spawners.old.items) (spawners_seen S.Spawner spawners.new.items)
        → DetectsAs (chosen_of result) (first_trial (says frame.now.target build_plan finished) catalog.now order.now)
        (asked_keys frame.now.target (says frame.now.target build_plan finished) catalog.now order.now)
        (has_erred frame.now.target (says frame.now.target build_plan finished) catalog.now order.now) }
    ensures asked { RunsAsked frame.now catalog.now order.now
        (spawners_seen S.Spawner spawners.old.items) (chosen_of result) (spawners_seen S.Spawner spawners.new.items) }
    ensures written { IfOk result (λ found.
        IsTrue (is_group_doc found.chosen.group) × IsTrue (is_plan_doc found.chosen.plan)) }
    // The answers decide the choice, and are those of the buildpacks that have to be asked.
    ensures recorded { IfOk result (IsRecorded order.now catalog.now frame.now.target) }
    // Each answer is the one that the spawners' new runs recorded for its buildpack.
    ensures answers { (finished : Seq Ran)
        → AskedBy finished (spawners_seen S.Spawner spawners.old.items) (spawners_seen S.Spawner spawners.new.items)
        → IfOk result (λ found. AreRecordedBy finished found.answers) }
    ensures faults { CountsSpawners end_cause result
        (faults_of (spawners_seen S.Spawner spawners.old.items))
        (faults_of (spawners_seen S.Spawner spawners.new.items)) }
{
    search(rt, alloc, order, catalog, spawners, workers, frame)
}

/// Searches the listed groups.
fn search<S: Spawner + Send, R: Threads + Sync>(
    rt: &R,
    alloc: Global,
    order: &Order,
    catalog: &Catalog,
    spawners: &mut Vec<S>,
    workers: usize,
    frame: &DetectFrame,
) -> Result<Recorded, DetectEnd>
    requires order { IsOk (checked catalog.now order.now) }
    requires spawners { 0 < length spawners.old.items }
    requires workers { 0 < workers }
    requires short { IsTrue (is_short frame.now) }
    ensures search { IsRecordedSearch frame.now (listed_groups catalog.now order.now)
        (spawners_seen S.Spawner spawners.old.items) (spawners_seen S.Spawner spawners.new.items) result }
    ensures faults { CountsSpawners end_cause result
        (faults_of (spawners_seen S.Spawner spawners.old.items))
        (faults_of (spawners_seen S.Spawner spawners.new.items)) }
{
    let mut walk = Walk::new(alloc, order, catalog)?;
    let mut kept = Kept::new(alloc);
    let mut answers = List::new(alloc);
    match search_groups(
        rt,
        alloc,
        spawners,
        workers,
        frame,
        &mut walk,
        &mut kept,
        &mut answers,
    ) {
        Ok(chosen) => Ok(Recorded { chosen, answers }),
        Err(end) => Err(end),
    }
}

/// Goes through the groups that are left of a walk, until one ends the search. Nobody was asked before.
fn search_groups<S: Spawner + Send, R: Threads + Sync>(
    rt: &R,
    alloc: Global,
    spawners: &mut Vec<S>,
    workers: usize,
    frame: &DetectFrame,
    walk: &mut Walk<'_>,
    kept: &mut Kept,
    rows: &mut List<AnswerRow>,
) -> Result<Chosen, DetectEnd>
    requires spawners { 0 < length spawners.old.items }
    requires workers { 0 < workers }
    requires short { IsTrue (is_short frame.now) }
    requires within { AreWithin walk.old }
    requires kept { kept.old ≡ [] }
    requires rows { rows.old ≡ [] }
    ensures search { IsSearch frame.now walk.old
        (spawners_seen S.Spawner spawners.old.items) (spawners_seen S.Spawner spawners.new.items) rows.new result }
    ensures faults { CountsSpawners end_cause result
        (faults_of (spawners_seen S.Spawner spawners.old.items))
        (faults_of (spawners_seen S.Spawner spawners.new.items)) }
{
    let mut erred = false;
    let mut place = 0u32;
    while let Some(group) = walk.next()? {
        ask_group(
            rt,
            alloc,
            spawners,
            workers,
            frame,
            group.as_slice(),
            kept,
            rows,
        )?;
        let judged = judge(alloc, &frame.target, group.as_slice(), kept)?;
        erred |= judged.erred;
        if let Some(chosen) = end_of(alloc, &judged, place, kept)? {
            return Ok(chosen);
        }
        place += 1;
    }
    Err(DetectEnd::NoGroup { erred })
}
