// The runs of a row.
use crate::run::run;
use cnb_world::{Sink, World};
use scenarios::{Answer, Came, Chain, Comparison, Fields, Outage, Standing, path_of};
use std::thread::Threads;

/// Adds what differs in the run of a row from what it wants and, where every call is to fail in turn or a file is to be
/// cut at each place, in those runs.
pub(crate) fn judge<R: Threads + Sync>(
    rt: &R,
    answer: &mut Answer,
    chain: &Chain,
    want: Fields,
    every_call: bool,
) {
    let Some(comparison) = Comparison::new(answer, chain, want) else {
        return;
    };
    if let Some(mut came) = run(rt, answer, chain, Outage::Nothing) {
        let mut found = Answer::new(answer.alloc);
        let whole = comparison.judge(&mut found, &mut came);
        let found = answer.taken(found);
        answer.put(&found);
        if every_call && found.is_empty() {
            fail_each(rt, answer, &comparison, &whole, &came);
        }
        for length in 0..chain.cuts(answer) {
            judge_outage(rt, answer, &comparison, &whole, Outage::Cut(length));
        }
    }
}

// Each call of the outside, in turn: those on the files, among which are the children that run over them, those of each
// child that is asked, the writes of the text, and those of each cache.
fn fail_each<R: Threads + Sync>(
    rt: &R,
    answer: &mut Answer,
    comparison: &Comparison,
    whole: &Standing,
    came: &Came,
) {
    for number in 0..u64::MAX {
        if !judge_outage(rt, answer, comparison, whole, Outage::World(number)) {
            break;
        }
    }
    if comparison.chain.spawner_count() <= 1 {
        for number in 0..came.asked_count() {
            judge_outage(
                rt,
                answer,
                comparison,
                whole,
                Outage::Spawner(number as u64),
            );
        }
    }
    for number in 0..u64::MAX {
        if !judge_outage(rt, answer, comparison, whole, Outage::Sink(number)) {
            break;
        }
    }
    for place in 0..comparison.chain.shelves().len() {
        fail_shelf(rt, answer, comparison, whole, place);
    }
}

// Each call of a cache.
fn fail_shelf<R: Threads + Sync>(
    rt: &R,
    answer: &mut Answer,
    comparison: &Comparison,
    whole: &Standing,
    place: usize,
) {
    for number in 0..u64::MAX {
        if !judge_outage(rt, answer, comparison, whole, Outage::Shelf(place, number)) {
            break;
        }
    }
}

// Compares a run with an outage, and tells whether there was one in it: behind the last call of the run there is none.
fn judge_outage<R: Threads + Sync>(
    rt: &R,
    answer: &mut Answer,
    comparison: &Comparison,
    whole: &Standing,
    outage: Outage,
) -> bool {
    let Some(mut came) = run(rt, answer, comparison.chain, outage) else {
        return false;
    };
    let has_failed = has_failed(answer, &mut came, outage);
    if has_failed {
        judge_failed(answer, comparison, &mut came, whole, outage);
    }
    has_failed
}

// Whether the call that was to fail came in the run: where it did not, the next call is that one.
fn has_failed(answer: &mut Answer, came: &mut Came, outage: Outage) -> bool {
    match outage {
        Outage::World(_) => match path_of(answer, "/") {
            Some(root) => came.world.kind(&root).is_ok(),
            None => false,
        },
        Outage::Sink(_) => came.out.write(b"").is_ok(),
        Outage::Shelf(place, _) => !came.is_unknown(place),
        Outage::Nothing | Outage::Spawner(_) | Outage::Cut(_) => true,
    }
}

fn judge_failed(
    answer: &mut Answer,
    comparison: &Comparison,
    came: &mut Came,
    whole: &Standing,
    outage: Outage,
) {
    match outage {
        Outage::Nothing => {}
        Outage::World(_) => {
            comparison.judge_refused(answer, came, whole, &["error 2 ", "error 5 "]);
        }
        Outage::Spawner(_) => comparison.judge_refused(answer, came, whole, &["error 5 "]),
        Outage::Sink(_) => comparison.judge_cut(answer, came, whole),
        Outage::Shelf(..) => comparison.judge_dropped(answer, came, whole),
        Outage::Cut(length) => comparison.judge_damaged(answer, came, length),
    }
}
