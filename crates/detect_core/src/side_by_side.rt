// Jobs run by spawners side by side.
ghost use Rattle.std.specs.Prelude.{◌≡◌, ◌<◌, ◌≤◌, IfOk, OnErr, length};
ghost use Rattle.detect_core.specs.Asking.{pool_cause, RunsSome};
ghost use Rattle.steps.specs.Asking.{AskedBy, CountsSpawners};
ghost use Rattle.steps.specs.Outside.{faults_of, spawners_seen};
ghost use Rattle.ticket_pool.specs.Deal.{recorded};

use cnb_world::{DetectJob, Probed, Spawner};
use std::alloc::Global;
use std::thread::Threads;
use ticket_pool::{PoolFault, Tickets, run_all};

/// Runs these jobs, each once, by as many of the spawners side by side as there are workers and jobs. The answers come
/// in the order of the jobs.
pub fn run_jobs<S: Spawner + Send, R: Threads + Sync>(
    rt: &R,
    alloc: Global,
    spawners: &mut Vec<S>,
    workers: usize,
    jobs: &[DetectJob],
) -> Result<Vec<Probed>, PoolFault>
    requires spawners { 0 < length spawners.old.items }
    requires workers { 0 < workers }
    requires few { length jobs.now ≤ 256 }
    ensures all { IfOk result (λ answers. AskedBy (recorded jobs.now answers.items)
        (spawners_seen S.Spawner spawners.old.items) (spawners_seen S.Spawner spawners.new.items)) }
    ensures answers { IfOk result (λ answers. length answers.items ≡ length jobs.now) }
    ensures some { OnErr result (RunsSome jobs.now
        (spawners_seen S.Spawner spawners.old.items) (spawners_seen S.Spawner spawners.new.items)) }
    ensures faults { CountsSpawners pool_cause result
        (faults_of (spawners_seen S.Spawner spawners.old.items))
        (faults_of (spawners_seen S.Spawner spawners.new.items)) }
{
    if jobs.is_empty() {
        return Ok(Vec::new(alloc));
    }
    let workers = workers.min(jobs.len());
    let used = workers.min(spawners.len());
    let (round, mut pass) = Tickets::new(alloc, jobs.len() as u32, used as u32)?;
    run_all(rt, alloc, spawners, workers, jobs, &round, &mut pass)
}
