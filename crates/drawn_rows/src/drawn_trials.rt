// Tables that a generator makes up, whose first trial that passes is looked for beside a plain search.
ghost use Rattle.std.specs.Prelude.{◌≡◌};
ghost use Rattle.std.specs.List.{list_all};
ghost use Rattle.plan_resolve.specs.Resolution.{has_options};

use crate::draws::Draws;
use crate::plain_trials::{NAMES, PlainOption, PlainRow, first_passing, put_passing};
use crate::texts::{Sums, is_wanted, key, put_number};
use bp_docs::PlanOption;
use cnb_toml::{Meta, Need};
use cnb_world::{List, Text};
use plan_resolve::{Alive, AliveRow, PlanFault, Resolved, resolve};
use row_files::Answer;
use run_docs::PlanEntry;

/// Resolves the tables of the seeds from one to before another. The answer is how many pass, with the sum of the numbers
/// of their trials and of the buildpacks that they keep, or the first table that comes to something else than by the
/// plain search.
pub(crate) fn compare_trials(answer: &mut Answer, first: u64, end: u64) {
    let mut sums = Sums {
        first: 0,
        second: 0,
        third: 0,
    };
    for seed in first..end {
        if !is_resolved(answer, &mut sums, seed) {
            return;
        }
    }
    put_number(answer, sums.first, " tables pass, by trials ");
    put_number(answer, sums.second, " in all, and keep ");
    put_number(answer, sums.third, " buildpacks");
}

fn is_resolved(answer: &mut Answer, sums: &mut Sums, seed: u64) -> bool {
    let rows = drawn_rows(answer, seed);
    let mut want = Answer::new(answer.alloc);
    put_first(&mut want, sums, rows.as_slice());
    let want = answer.taken(want);
    let mut found = Answer::new(answer.alloc);
    put_trial(&mut found, rows.as_slice());
    let found = answer.taken(found);
    is_wanted(
        answer,
        "table ",
        seed,
        found.as_str(),
        " for ",
        want.as_str(),
    )
}

// Adds the first trial that passes by the plain search.
fn put_first(answer: &mut Answer, sums: &mut Sums, rows: &[PlainRow]) {
    match first_passing(answer, rows) {
        Some(passing) => {
            sums.add(1, passing.number, passing.kept.as_slice().len() as u64);
            put_passing(answer, &passing);
        }
        None => answer.put("fails"),
    }
}

fn have_options(rows: &[AliveRow]) -> bool
    ensures { result ≡ list_all has_options rows.now }
{
    rows.iter().all(|row| 0 < row.options.as_slice().len())
}

// Adds the first trial that passes by the call.
fn put_trial(answer: &mut Answer, rows: &[PlainRow]) {
    let alive = alive_of(answer, rows);
    if alive.as_slice().len() > 6 || !have_options(alive.as_slice()) {
        answer.wrong("no fit table of", "buildpacks");
    } else {
        put_resolution(answer, &resolve(answer.alloc, &alive));
    }
}

fn put_resolution(answer: &mut Answer, resolved: &Result<Option<Resolved>, PlanFault>) {
    match resolved {
        Ok(Some(resolved)) => put_resolved(answer, resolved),
        Ok(None) => answer.put("fails"),
        Err(fault) => answer.debug(fault),
    }
}

fn put_resolved(answer: &mut Answer, resolved: &Resolved) {
    answer.put("trial ");
    answer.show(&resolved.trial);
    answer.put(" of ");
    answer.show(&resolved.trials);
    answer.put(" keeps");
    for place in resolved.kept.as_slice() {
        answer.put(" ");
        answer.show(place);
    }
    for entry in resolved.plan.as_slice() {
        put_entry(answer, entry);
    }
}

fn put_entry(answer: &mut Answer, entry: &PlanEntry) {
    answer.put_all(&["\n", entry.name.as_str(), " by"]);
    for key in entry.providers.as_slice() {
        answer.put_all(&[" ", key.id.as_str()]);
    }
    answer.put(" for");
    for need in entry.needs.as_slice() {
        if let Meta::Text(text) = &need.meta {
            answer.put_all(&[" ", text.as_str()]);
        }
    }
}

// Two to six buildpacks of up to four alternatives, over two to four names.
fn drawn_rows(answer: &mut Answer, seed: u64) -> List<PlainRow> {
    let mut draws = Draws::new(seed);
    let names = match draws.below(3) {
        0 => 3,
        1 => 7,
        _ => 15,
    };
    let mut rows = List::new(answer.alloc);
    for _ in 0..draws.below(5).saturating_add(2) {
        let optional = draws.is_one_in(2);
        let mut options = List::new(answer.alloc);
        for _ in 0..draws.below(4).saturating_add(1) {
            let (provides, needs) = (
                drawn_names(&mut draws, names),
                drawn_names(&mut draws, names),
            );
            answer.done(options.push(PlainOption { provides, needs }));
        }
        answer.done(rows.push(PlainRow { optional, options }));
    }
    rows
}

// Each of some names is one of four times among these.
fn drawn_names(draws: &mut Draws, names: u64) -> u64 {
    let (first, second) = (draws.below(16), draws.below(16));
    first & second & names
}

fn alive_of(answer: &mut Answer, rows: &[PlainRow]) -> Alive {
    let mut alive = List::new(answer.alloc);
    for (place, row) in rows.iter().enumerate() {
        push_alive(answer, &mut alive, place, row);
    }
    alive
}

fn push_alive(answer: &mut Answer, alive: &mut Alive, place: usize, row: &PlainRow) {
    if let Some(key) = key(answer, "b", place as u64, 1) {
        let options = options_of(answer, key.id.as_str(), row.options.as_slice());
        answer.done(alive.push(AliveRow {
            key,
            optional: row.optional,
            options,
        }));
    }
}

fn options_of(answer: &mut Answer, buildpack: &str, plain: &[PlainOption]) -> List<PlanOption> {
    let mut options = List::new(answer.alloc);
    for option in plain {
        let provides = names_of(answer, option.provides);
        let needs = needs_of(answer, buildpack, option.needs);
        answer.done(options.push(PlanOption { provides, needs }));
    }
    options
}

fn names_of(answer: &mut Answer, set: u64) -> List<Text> {
    let mut names = List::new(answer.alloc);
    for (name, bit) in NAMES {
        if set & bit != 0 {
            let name = answer.text(name);
            answer.done(names.push(name));
        }
    }
    names
}

// What is said of a requirement is who requires it.
fn needs_of(answer: &mut Answer, buildpack: &str, set: u64) -> List<Need> {
    let mut needs = List::new(answer.alloc);
    for (name, bit) in NAMES {
        if set & bit != 0 {
            let name = answer.text(name);
            let meta = Meta::Text(answer.text(buildpack));
            answer.done(needs.push(Need { name, meta }));
        }
    }
    needs
}
