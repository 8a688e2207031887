// Runs over worlds that tell nothing and contradict themselves.
use crate::run::status_over;
use cnb_world::{Liar, List};
use scenarios::{Answer, Chain, Outage, compare};
use std::thread::Threads;

/// The seeds of the worlds.
const SEEDS: u64 = 100;

/// Adds what differs in the statuses that come over a hundred such worlds.
pub(crate) fn judge_lies<R: Threads + Sync>(
    rt: &R,
    answer: &mut Answer,
    chain: &Chain,
    wanted: &str,
) {
    let mut is_status = [false; 256];
    for seed in 0..SEEDS {
        let status = status_over_liar(rt, answer, chain, seed);
        is_status[status as usize] = true;
    }
    let mut came = Answer::new(answer.alloc);
    put_statuses(&mut came, &is_status);
    let came = answer.taken(came);
    compare(answer, "statuses", wanted, &came);
}

// The exit status over one of them.
fn status_over_liar<R: Threads + Sync>(
    rt: &R,
    answer: &mut Answer,
    chain: &Chain,
    seed: u64,
) -> u8 {
    let mut world = Liar::new(answer.alloc, seed);
    let mut spawners = chain.spawners(answer, Outage::Nothing);
    let Some(mut out) = chain.sink(answer, Outage::Nothing) else {
        return 0;
    };
    let mut caches = List::new(answer.alloc);
    status_over(
        rt,
        answer,
        chain,
        Outage::Nothing,
        &mut world,
        &mut spawners,
        &mut out,
        &mut caches,
    )
}

// Adds the statuses that came, ascending.
fn put_statuses(text: &mut Answer, is_status: &[bool]) {
    let mut front = "";
    for (status, came) in is_status.iter().enumerate() {
        if *came {
            text.put(front);
            text.show(&status);
            front = " ";
        }
    }
}
