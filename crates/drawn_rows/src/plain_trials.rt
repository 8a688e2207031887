// A plain search for the first trial that passes: through all of them, each pruned in rounds.
use crate::texts::put_number;
use cnb_world::List;
use row_files::Answer;

/// The names, and the bit that stands for each in a set of names.
pub(crate) const NAMES: [(&str, u64); 4] = [("p", 1), ("q", 2), ("r", 4), ("s", 8)];

/// An alternative: the names that it provides, and those that it requires.
#[derive(Clone, Copy)]
pub(crate) struct PlainOption {
    pub(crate) provides: u64,
    pub(crate) needs: u64,
}

/// A buildpack, with its alternatives.
#[derive(Drop)]
pub(crate) struct PlainRow {
    pub(crate) optional: bool,
    pub(crate) options: List<PlainOption>,
}

/// A buildpack of a trial, with the alternative that was chosen for it.
#[derive(Clone, Copy)]
pub(crate) struct Placed {
    place: usize,
    optional: bool,
    option: PlainOption,
}

/// The first trial that passes, of how many, and the buildpacks that it keeps.
#[derive(Drop)]
pub(crate) struct PlainPassing {
    pub(crate) number: u64,
    pub(crate) trials: u64,
    pub(crate) kept: List<Placed>,
}

pub(crate) fn first_passing(answer: &mut Answer, rows: &[PlainRow]) -> Option<PlainPassing> {
    let mut trials = 1u64;
    for row in rows {
        trials = trials.saturating_mul(row.options.as_slice().len() as u64);
    }
    for number in 0..trials {
        if let Some(kept) = passing(answer, rows, number) {
            return Some(PlainPassing {
                number,
                trials,
                kept,
            });
        }
    }
    None
}

// The buildpacks that the trial of a number keeps, where it passes: some, and all that are required.
fn passing(answer: &mut Answer, rows: &[PlainRow], number: u64) -> Option<List<Placed>> {
    let trial = trial_of(answer, rows, number);
    let kept = pruned(answer, trial.as_slice());
    let required = required_count(trial.as_slice());
    if !kept.as_slice().is_empty() && required_count(kept.as_slice()) == required {
        Some(kept)
    } else {
        None
    }
}

// The alternatives of a trial are the digits of its number, of which the last varies fastest.
fn trial_of(answer: &mut Answer, rows: &[PlainRow], number: u64) -> List<Placed> {
    let mut left = number;
    let mut trial = List::new(answer.alloc);
    for (place, row) in rows.iter().enumerate().rev() {
        let options = row.options.as_slice();
        let count = options.len() as u64;
        if let Some(option) = options.get(left.checked_rem(count).unwrap_or(0) as usize) {
            answer.done(trial.push(Placed {
                place,
                optional: row.optional,
                option: *option,
            }));
        }
        left = left.checked_div(count).unwrap_or(0);
    }
    let mut trial = trial.into_vec();
    trial.reverse();
    List::from_vec(trial)
}

// Takes those away that don't hold, round by round, until nothing changes. Each round but the last takes one at least.
fn pruned(answer: &mut Answer, trial: &[Placed]) -> List<Placed> {
    let mut kept = held(answer, trial);
    for _ in trial {
        kept = held(answer, kept.as_slice());
    }
    kept
}

fn held(answer: &mut Answer, kept: &[Placed]) -> List<Placed> {
    let mut held = List::new(answer.alloc);
    for placed in kept {
        if holds(kept, placed) {
            answer.done(held.push(*placed));
        }
    }
    held
}

// Whether all names that it requires are provided at or before its place, and all that it provides required there or
// behind.
fn holds(kept: &[Placed], placed: &Placed) -> bool {
    let (mut provided, mut required) = (0u64, 0u64);
    for other in kept {
        if other.place <= placed.place {
            provided |= other.option.provides;
        }
        if placed.place <= other.place {
            required |= other.option.needs;
        }
    }
    let PlainOption { provides, needs } = placed.option;
    needs & provided == needs && provides & required == provides
}

fn required_count(trial: &[Placed]) -> u64 {
    let mut count = 0u64;
    for placed in trial {
        if !placed.optional {
            count = count.saturating_add(1);
        }
    }
    count
}

/// Adds a trial, with its plan behind it.
pub(crate) fn put_passing(answer: &mut Answer, passing: &PlainPassing) {
    answer.put("trial ");
    put_number(answer, passing.number, " of ");
    put_number(answer, passing.trials, " keeps");
    for placed in passing.kept.as_slice() {
        answer.put(" ");
        answer.show(&placed.place);
    }
    for (name, bit) in NAMES {
        put_entry(answer, passing.kept.as_slice(), name, bit);
    }
}

// Adds the entry of a name that these provide or require.
fn put_entry(answer: &mut Answer, kept: &[Placed], name: &str, bit: u64) {
    let mut met = 0u64;
    for placed in kept {
        met |= placed.option.provides | placed.option.needs;
    }
    if met & bit != 0 {
        answer.put_all(&["\n", name, " by"]);
        for placed in kept {
            put_if(answer, placed, placed.option.provides & bit != 0);
        }
        answer.put(" for");
        for placed in kept {
            put_if(answer, placed, placed.option.needs & bit != 0);
        }
    }
}

fn put_if(answer: &mut Answer, placed: &Placed, is_told: bool) {
    if is_told {
        answer.put(" b");
        answer.show(&placed.place);
    }
}
