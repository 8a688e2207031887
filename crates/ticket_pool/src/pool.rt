// All jobs, by workers side by side.
ghost use Rattle.std.specs.Prelude.{◌≡◌, ◌+◌, ◌<◌, ◌≤◌, ◌^◌, [], IfOk, OnErr, drop, length, map, min, take};
ghost use Rattle.std.specs.List.{AllZip};
ghost use Rattle.ticket_pool.specs.Counts.{CountsPool};
ghost use Rattle.ticket_pool.specs.Deal.{RanAll, RanSome};
ghost use Rattle.ticket_pool.specs.Numbers.{upto};
ghost use Rattle.ticket_pool.specs.Passes.{IsPassOf, jobs_of, spawners_of, view_of};
ghost use Rattle.ticket_pool.specs.Said.{RanAsSaid};
ghost use Rattle.ticket_pool.specs.TicketRule.{view};

use crate::fault::PoolFault;
use crate::halves::run_halves;
use crate::placing::place_all;
use crate::room::{blank_answers, reserved_lists};
use crate::tickets::{Pass, Tickets};
use cnb_world::{DetectJob, Probed, Spawner};
use std::alloc::Global;
use std::thread::Threads;

/// Runs all jobs, each once, by the first spawners side by side, at most as many as there are workers. The answers come
/// in the order of the jobs.
pub fn run_all<S: Spawner + Send, R: Threads + Sync>(
    rt: &R,
    alloc: Global,
    spawners: &mut Vec<S>,
    workers: usize,
    jobs: &[DetectJob],
    round: &Tickets,
    pass: &mut Pass,
) -> Result<Vec<Probed>, PoolFault>
    requires spawners { 0 < length spawners.old.items }
    requires workers { 0 < workers }
    requires small { length jobs.now + min workers (length spawners.old.items) < 2 ^ 32 }
    requires round { IsPassOf round.now pass.old }
    requires round_jobs { jobs_of round.now ≡ length jobs.now }
    requires round_spawners { spawners_of round.now ≡ min workers (length spawners.old.items) }
    requires fresh { (view_of pass.old).drawn ≡ [] }
    requires whole { (view_of pass.old).spawners ≡ spawners_of round.now }

    // Each job was run once, and has the answer of its run; the runs are a round.
    ensures all { let used = min workers (length spawners.old.items) in IfOk result (λ answers.
        RanAll S.runs jobs.now answers.items (take used spawners.old.items) (take used spawners.new.items)) }
    ensures answers { IfOk result (λ answers. length answers.items ≡ length jobs.now) }
    // After a failure some of the jobs were run, each at most once.
    ensures some { let used = min workers (length spawners.old.items) in
        OnErr result (RanSome S.runs jobs.now (take used spawners.old.items) (take used spawners.new.items)) }
    ensures others { let used = min workers (length spawners.old.items) in
        drop used spawners.new.items ≡ drop used spawners.old.items }

    // No spawner says anything new, and each child answered as its spawner says.
    ensures same_says { map S.says spawners.new.items ≡ map S.says spawners.old.items }
    ensures said { AllZip (RanAsSaid S.runs S.says) spawners.old.items spawners.new.items }
    ensures counts { CountsPool result (map S.faults spawners.old.items) (map S.faults spawners.new.items) }

    // The pass has all spawners of the round again. It has drawn a number for each job, and one more for each spawner.
    ensures round { IsPassOf round.now pass.new }
    ensures whole { (view_of pass.new).spawners ≡ spawners_of round.now }
    ensures drawn { IfOk result (λ answers.
        (view_of pass.new).drawn ≡ upto (length jobs.now + min workers (length spawners.old.items))) }
{
    let used = workers.min(spawners.len());
    let (front, _rest) = spawners.as_mut_slice().split_at_mut(used);
    run_used(rt, alloc, front, jobs, round, pass)
}

// The same by all of these spawners.
fn run_used<S: Spawner + Send, R: Threads + Sync>(
    rt: &R,
    alloc: Global,
    spawners: &mut [S],
    jobs: &[DetectJob],
    round: &Tickets,
    pass: &mut Pass,
) -> Result<Vec<Probed>, PoolFault>
    requires some { 1 ≤ length spawners.old }
    requires small { length jobs.now + length spawners.old < 2 ^ 32 }
    requires round { IsPassOf round.now pass.old }
    requires round_jobs { jobs_of round.now ≡ length jobs.now }
    requires round_spawners { spawners_of round.now ≡ length spawners.old }
    requires pass { view_of pass.old ≡ view [] (length spawners.old) 0 }
    ensures all { IfOk result (λ answers. RanAll S.runs jobs.now answers.items spawners.old spawners.new) }
    ensures answers { IfOk result (λ answers. length answers.items ≡ length jobs.now) }
    ensures some { OnErr result (RanSome S.runs jobs.now spawners.old spawners.new) }
    ensures same_says { map S.says spawners.new ≡ map S.says spawners.old }
    ensures said { AllZip (RanAsSaid S.runs S.says) spawners.old spawners.new }
    ensures counts { CountsPool result (map S.faults spawners.old) (map S.faults spawners.new) }
    ensures round { IsPassOf round.now pass.new }
    ensures whole { (view_of pass.new).spawners ≡ spawners_of round.now }
    ensures drawn { IfOk result (λ answers.
        (view_of pass.new).drawn ≡ upto (length jobs.now + length spawners.old)) }
{
    let mut lists = reserved_lists(alloc, spawners.len(), jobs.len())?;
    let mut answers = blank_answers(alloc, jobs.len())?;
    run_halves(rt, jobs, round, pass, lists.as_mut_slice(), spawners)?;
    place_all(answers.as_mut_slice(), lists);
    Ok(answers)
}
