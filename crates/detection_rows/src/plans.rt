// Calls of plan_resolve.
ghost use Rattle.std.specs.Prelude.{◌≡◌};
ghost use Rattle.std.specs.List.{list_all};
ghost use Rattle.plan_resolve.specs.Resolution.{has_options};

use crate::buildpacks::{key, options, put_key};
use crate::given::expanded;
use bp_docs::PlanOption;
use cnb_toml::{Meta, Need, ascending};
use cnb_world::{List, Memory};
use plan_resolve::{
    Alive, AliveRow, PlanFault, Resolved, Trial, TrialRow, has_name, kept, resolve,
};
use row_files::{Answer, Row};
use run_docs::PlanEntry;

/// The most buildpacks of a group.
const MOST: usize = 1000;

// Buildpacks that passed: parts that begin with `> a?`, each with a Build Plan behind that line.
fn alive(answer: &mut Answer, row: &Row) -> Alive {
    let text = answer.given(row, "group");
    let text = expanded(answer, row, text);
    let mut rows = List::new(answer.alloc);
    for part in text.as_str().split("> ").skip(1) {
        push_alive(answer, &mut rows, part);
    }
    rows
}

fn push_alive(answer: &mut Answer, rows: &mut Alive, part: &str) {
    let (head, plan) = part.split_once('\n').unwrap_or((part, ""));
    let head = head.trim();
    let optional = head.ends_with('?');
    if let Some(key) = key(answer, head.strip_suffix('?').unwrap_or(head)) {
        if let Some(options) = options(answer, plan) {
            answer.done(rows.push(AliveRow {
                key,
                optional,
                options,
            }));
        }
    }
}

// The trial of each buildpack's last alternative.
fn trial(answer: &mut Answer, row: &Row) -> Trial {
    let mut trial = List::new(answer.alloc);
    for row in alive(answer, row).into_vec() {
        push_last(answer, &mut trial, row);
    }
    trial
}

fn push_last(answer: &mut Answer, trial: &mut Trial, row: AliveRow) {
    let optional = row.optional;
    if let Some(PlanOption { provides, needs }) = row.options.into_vec().pop() {
        answer.done(trial.push(TrialRow {
            optional,
            provides,
            needs,
        }));
    }
}

/// The places that a trial keeps, from 0.
pub(crate) fn keep(answer: &mut Answer, row: &Row) {
    let trial = trial(answer, row);
    if trial.as_slice().len() > MOST {
        answer.wrong("too long:", "group");
    } else {
        put_kept(answer, &kept(answer.alloc, &trial));
    }
}

fn put_kept(answer: &mut Answer, kept: &Result<Option<Vec<u32>>, Memory>) {
    match kept {
        Ok(Some(places)) => {
            answer.put("keeps");
            put_places(answer, places);
        }
        Ok(None) => answer.put("fails"),
        Err(Memory) => answer.run_out(),
    }
}

fn put_places(answer: &mut Answer, places: &[u32]) {
    for place in places {
        answer.put(" ");
        answer.show(place);
    }
}

fn have_options(rows: &[AliveRow]) -> bool
    ensures { result ≡ list_all has_options rows.now }
{
    rows.iter().all(|row| 0 < row.options.as_slice().len())
}

/// The first trial of a group that passes, with the places that it keeps and its plan.
pub(crate) fn first_trial(answer: &mut Answer, row: &Row) {
    let alive = alive(answer, row);
    if alive.as_slice().len() > MOST || !have_options(alive.as_slice()) {
        answer.wrong("no fit group in", "group");
    } else {
        put_trial(answer, &resolve(answer.alloc, &alive));
    }
}

fn put_trial(answer: &mut Answer, resolved: &Result<Option<Resolved>, PlanFault>) {
    match resolved {
        Ok(Some(resolved)) => put_resolved(answer, resolved),
        Ok(None) => answer.put("fails"),
        Err(fault) => answer.debug(fault),
    }
}

fn put_resolved(answer: &mut Answer, resolved: &Resolved) {
    answer.put("trial ");
    answer.show(&resolved.trial);
    answer.put(" of ");
    answer.show(&resolved.trials);
    answer.put(" keeps");
    put_places(answer, resolved.kept.as_slice());
    put_plan(answer, resolved.plan.as_slice());
}

/// Adds each entry of a plan on a line, as `q by a@1.0.0 for b`.
pub(crate) fn put_plan(answer: &mut Answer, plan: &[PlanEntry]) {
    for entry in plan {
        answer.put_all(&["\n", entry.name.as_str(), " by"]);
        for key in entry.providers.as_slice() {
            answer.put(" ");
            put_key(answer, key);
        }
        answer.put(" for");
        for need in entry.needs.as_slice() {
            put_need(answer, need);
        }
    }
}

// Adds the texts in the metadata of a requirement, or `-` where it has none.
fn put_need(answer: &mut Answer, need: &Need) {
    let mut has_text = false;
    if let Meta::Table(members) = &need.meta {
        for member in members.as_slice() {
            if let Meta::Text(text) = &member.value {
                answer.put_all(&[" ", text.as_str()]);
                has_text = true;
            }
        }
    }
    answer.put(if has_text { "" } else { " -" });
}

/// Names in ascending order, each once.
pub(crate) fn sort_names(answer: &mut Answer, row: &Row) {
    let mut names = List::new(answer.alloc);
    for name in answer.given(row, "names").split_whitespace() {
        answer.done(names.push(name));
    }
    if let Some(names) = answer.made(ascending(answer.alloc, names.into_vec())) {
        for name in names {
            answer.put_all(&[name, "\n"]);
        }
    }
}

/// Whether a name is among others.
pub(crate) fn find_name(answer: &mut Answer, row: &Row) {
    let mut names = List::new(answer.alloc);
    for name in answer.given(row, "names").split_whitespace() {
        let name = answer.text(name);
        answer.done(names.push(name));
    }
    let name = answer.given(row, "name");
    answer.show(&has_name(names.as_slice(), name));
}
