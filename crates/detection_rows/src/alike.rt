// Detections of random orders, by several spawners beside one.
ghost use Rattle.std.specs.Prelude.{IsOk};
ghost use Rattle.order_expand.specs.Check.{checked};

use crate::buildpacks::{catalog, order};
use crate::detection::{end_by, put_end, put_runs, spawners};
use crate::given::{Given, number_or};
use crate::meeting::Meeting;
use crate::random::random_row;
use bp_docs::Order;
use cnb_detect::choice_text;
use cnb_world::{Bytes, Memory};
use detect_core::{Chosen, DetectEnd};
use order_expand::{Catalog, check};
use row_files::{Answer, Row};
use run_docs::{write_group, write_plan};
use std::thread::Threads;

// How many groups were chosen, how many members they have, and how many children were asked for them.
#[derive(Drop)]
struct Tally {
    chosen: usize,
    members: usize,
    asked: usize,
}

impl Tally {
    fn new() -> Tally {
        Tally {
            chosen: 0,
            members: 0,
            asked: 0,
        }
    }

    fn add(&mut self, end: &Result<Chosen, DetectEnd>) {
        if let Ok(chosen) = end {
            let (members, asked) = (chosen.group.as_slice().len(), chosen.asked.as_slice().len());
            self.chosen = self.chosen.saturating_add(1);
            self.members = self.members.saturating_add(members);
            self.asked = self.asked.saturating_add(asked);
        }
    }
}

fn put_tally(answer: &mut Answer, tally: &Tally) {
    answer.show(&tally.chosen);
    answer.put(" groups chosen, of ");
    answer.show(&tally.members);
    answer.put(" members; ");
    answer.show(&tally.asked);
    answer.put(" children asked");
}

/// Detects the orders of some seeds by several spawners and by one. The answer is how many groups one spawner chose, or
/// the first order of which several come to something else: another group or plan, other children asked or run, other
/// lines printed, or other documents.
pub(crate) fn compare_orders<R: Threads + Sync>(rt: &R, answer: &mut Answer, given: &Given) {
    let counts = answer.numbers(given.row.text_or_empty("spawners"));
    let targeted = given.row.text_or_empty("targeted") == "yes";
    let mut tally = Tally::new();
    for seed in 0..number_or(answer, given.row, "seeds", 1) {
        let row = random_row(answer, seed, targeted);
        let given = Given {
            clock: given.clock,
            row: &row,
        };
        if !is_alike(rt, answer, &given, counts.as_slice(), &mut tally) {
            return;
        }
    }
    put_tally(answer, &tally);
}

// Whether several spawners come to the same as one. Where they don't, there is added what they come to.
fn is_alike<R: Threads + Sync>(
    rt: &R,
    answer: &mut Answer,
    given: &Given,
    counts: &[u64],
    tally: &mut Tally,
) -> bool {
    let catalog = catalog(answer, given.row);
    match order(answer, given.row) {
        Some(order) => is_refused_or_alike(rt, answer, given, &order, &catalog, counts, tally),
        None => true,
    }
}

fn is_refused_or_alike<R: Threads + Sync>(
    rt: &R,
    answer: &mut Answer,
    given: &Given,
    order: &Order,
    catalog: &Catalog,
    counts: &[u64],
    tally: &mut Tally,
) -> bool {
    match check(answer.alloc, order, catalog) {
        Ok(_) => are_all_alike(rt, answer, given, order, catalog, counts, tally),
        Err(_) => true,
    }
}

fn are_all_alike<R: Threads + Sync>(
    rt: &R,
    answer: &mut Answer,
    given: &Given,
    order: &Order,
    catalog: &Catalog,
    counts: &[u64],
    tally: &mut Tally,
) -> bool
    requires { IsOk (checked catalog.now order.now) }
{
    let by_one = detected(rt, answer, given, order, catalog, 1, tally);
    for count in counts {
        let mut other = Tally::new();
        let by_several = detected(rt, answer, given, order, catalog, *count, &mut other);
        if by_several != by_one {
            answer.put_all(&[given.row.name.as_str(), " by "]);
            answer.show(count);
            answer.put_all(&[
                " spawners: ",
                by_several.as_str(),
                "\nand by one: ",
                by_one.as_str(),
            ]);
            return false;
        }
    }
    true
}

// All that a detection by so many spawners comes to.
fn detected<R: Threads + Sync>(
    rt: &R,
    answer: &mut Answer,
    given: &Given,
    order: &Order,
    catalog: &Catalog,
    count: u64,
    tally: &mut Tally,
) -> String
    requires { IsOk (checked catalog.now order.now) }
{
    let mut spawners = spawners(answer, given, count);
    let mut text = Answer::new(answer.alloc);
    if let Some(end) = end_by(rt, &mut text, given.row, order, catalog, &mut spawners) {
        tally.add(&end);
        put_detected(&mut text, given.row, &end, spawners.as_slice());
    }
    answer.taken(text)
}

// Where a child gave no answer, it is a matter of time which others ran.
fn put_detected(
    answer: &mut Answer,
    row: &Row,
    end: &Result<Chosen, DetectEnd>,
    spawners: &[Meeting<'_>],
) {
    put_end(answer, end);
    if let Ok(chosen) = end {
        put_written(answer, chosen);
    }
    if !matches!(end, Err(DetectEnd::Child)) {
        put_runs(answer, row, spawners, true);
    }
}

// Adds what is printed of a choice, and its two documents.
fn put_written(answer: &mut Answer, chosen: &Chosen) {
    answer.put("\n");
    answer.put_made(choice_text(answer.alloc, &chosen.group, chosen.plan.as_slice().len()));
    put_document(answer, &write_group(answer.alloc, &chosen.group));
    put_document(answer, &write_plan(answer.alloc, &chosen.plan));
}

fn put_document(answer: &mut Answer, written: &Result<Bytes, Memory>) {
    match written {
        Ok(bytes) => answer.put_lossy(bytes.as_slice()),
        Err(Memory) => answer.run_out(),
    }
}
