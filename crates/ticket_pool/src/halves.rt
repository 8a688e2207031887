// Workers side by side, by halves.
ghost use Rattle.std.specs.Prelude.{◌≡◌, ◌≤◌, ◌<◌, ◌^◌, [], All, length, map, vec_capacity};
ghost use Rattle.std.specs.Thread.{IsSend, IsSync};
ghost use Rattle.ticket_pool.specs.Counts.{first_fault};
ghost use Rattle.ticket_pool.specs.Passes.{IsPassOf, jobs_of, spawners_of, view_of};
ghost use Rattle.ticket_pool.specs.TicketRule.{view};
ghost use Rattle.ticket_pool.specs.Work.{HasRoom, Worked};

use crate::answer::Answer;
use crate::fault::PoolFault;
use crate::tickets::{Pass, Tickets};
use crate::worker::work;
use cnb_world::{DetectJob, Spawner};
use std::thread::{Threads, join_mut};

/// Runs the jobs by all these spawners side by side: one half of them in a thread of its own, and so on, down to one.
#[cycle(halves)]
pub fn run_halves<S: Spawner + Send, R: Threads + Sync>(
    rt: &R,
    jobs: &[DetectJob],
    round: &Tickets,
    pass: &mut Pass,
    lists: &mut [Vec<Answer>],
    spawners: &mut [S],
) -> Result<(), PoolFault>
    requires round { IsPassOf round.now pass.old }
    requires jobs { jobs_of round.now ≡ length jobs.now }
    requires pass { view_of pass.old ≡ view [] (length spawners.old) 0 }
    requires count { length lists.old ≡ length spawners.old }
    requires lists { All (λ list. HasRoom (length jobs.now) list.items (vec_capacity list)) lists.old }
    requires some { 1 ≤ length spawners.old }
    requires small { length spawners.old < 2 ^ 32 }
    ensures round { IsPassOf round.now pass.new }
    ensures worked { Worked S.runs S.says S.faults jobs.now (spawners_of round.now)
        spawners.old spawners.new (map (λ list. list.items) lists.new) (view_of pass.new) result }
{
    if spawners.len() < 2 {
        return work(jobs, round, pass, &mut lists[0], &mut spawners[0]);
    }
    let half = spawners.len() / 2;
    let mut other = round.split(pass, half as u32);
    let (low, high) = spawners.split_at_mut(half);
    let (front, back) = lists.split_at_mut(half);
    let (left, right) = run_both(rt, jobs, round, &mut other, front, low, pass, back, high);
    round.join(pass, other);
    joined(left, right)
}

#[cycle(halves)]
fn run_both<S: Spawner + Send, R: Threads + Sync>(
    rt: &R,
    jobs: &[DetectJob],
    round: &Tickets,
    other: &mut Pass,
    front: &mut [Vec<Answer>],
    low: &mut [S],
    pass: &mut Pass,
    back: &mut [Vec<Answer>],
    high: &mut [S],
) -> (Result<(), PoolFault>, Result<(), PoolFault>)
    requires jobs { jobs_of round.now ≡ length jobs.now }
    requires left_round { IsPassOf round.now other.old }
    requires left_pass { view_of other.old ≡ view [] (length low.old) 0 }
    requires left_count { length front.old ≡ length low.old }
    requires left_lists { All (λ list. HasRoom (length jobs.now) list.items (vec_capacity list)) front.old }
    requires left_some { 1 ≤ length low.old }
    requires left_small { length low.old < 2 ^ 32 }
    requires right_round { IsPassOf round.now pass.old }
    requires right_pass { view_of pass.old ≡ view [] (length high.old) 0 }
    requires right_count { length back.old ≡ length high.old }
    requires right_lists { All (λ list. HasRoom (length jobs.now) list.items (vec_capacity list)) back.old }
    requires right_some { 1 ≤ length high.old }
    requires right_small { length high.old < 2 ^ 32 }
    ensures left_round { IsPassOf round.now other.new }
    ensures left { Worked S.runs S.says S.faults jobs.now (spawners_of round.now)
        low.old low.new (map (λ list. list.items) front.new) (view_of other.new) result.0 }
    ensures right_round { IsPassOf round.now pass.new }
    ensures right { Worked S.runs S.says S.faults jobs.now (spawners_of round.now)
        high.old high.new (map (λ list. list.items) back.new) (view_of pass.new) result.1 }
{
    let mut left = || -> Result<(), PoolFault>
        requires { IsSync R.row × IsSend S.row × IsPassOf round.now other.now × (jobs_of round.now ≡ length jobs.now)
            × (view_of other.now ≡ view [] (length low.now) 0) × (length front.now ≡ length low.now)
            × All (λ list. HasRoom (length jobs.now) list.items (vec_capacity list)) front.now
            × (1 ≤ length low.now) × (length low.now < 2 ^ 32) }
        ensures round { IsPassOf round.entry.now other.exit.now }
        ensures worked { Worked S.runs S.says S.faults jobs.entry.now (spawners_of round.entry.now)
            low.entry.now low.exit.now (map (λ list. list.items) front.exit.now) (view_of other.exit.now) result }
    { run_halves(rt, jobs, round, other, front, low) };
    let mut right = || -> Result<(), PoolFault>
        requires { IsSync R.row × IsSend S.row × IsPassOf round.now pass.now × (jobs_of round.now ≡ length jobs.now)
            × (view_of pass.now ≡ view [] (length high.now) 0) × (length back.now ≡ length high.now)
            × All (λ list. HasRoom (length jobs.now) list.items (vec_capacity list)) back.now
            × (1 ≤ length high.now) × (length high.now < 2 ^ 32) }
        ensures round { IsPassOf round.entry.now pass.exit.now }
        ensures worked { Worked S.runs S.says S.faults jobs.entry.now (spawners_of round.entry.now)
            high.entry.now high.exit.now (map (λ list. list.items) back.exit.now) (view_of pass.exit.now) result }
    { run_halves(rt, jobs, round, pass, back, high) };
    join_mut(rt, &mut left, &mut right)
}

// How two workers ended: a child's fault before want of memory.
fn joined(left: Result<(), PoolFault>, right: Result<(), PoolFault>) -> Result<(), PoolFault>
    ensures { result ≡ first_fault left right }
{
    match left {
        Ok(()) => right,
        Err(PoolFault::Child) => left,
        Err(PoolFault::Memory) if right.is_ok() => left,
        Err(PoolFault::Memory) => right,
    }
}
