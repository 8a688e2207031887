// A plain listing of the groups that an order stands for: all of them, composite by composite.
use crate::texts::put_number;
use cnb_world::List;
use row_files::Answer;

/// How many groups are listed at most, one more than an order may stand for.
pub(crate) const MOST: usize = 4097;

/// An entry: the number of a buildpack, or behind all of those the number of a composite. The buildpacks of numbers 2n
/// and 2n + 1 are two versions of the id n. One in three clears the environment, and each has up to three targets.
#[derive(Clone, Copy)]
pub(crate) struct PlainEntry {
    pub(crate) number: u64,
    pub(crate) optional: bool,
}

/// The entries of a group, or its members, which are entries of buildpacks.
pub(crate) type PlainGroup = List<PlainEntry>;

/// An order over buildpacks and composites. A composite names only those of lower numbers.
#[derive(Drop)]
pub(crate) struct PlainOrder {
    pub(crate) buildpacks: u64,
    pub(crate) composites: List<List<PlainGroup>>,
    pub(crate) groups: List<PlainGroup>,
}

/// The groups that an order stands for, in which the first member of an id stands.
pub(crate) fn groups_of(answer: &mut Answer, order: &PlainOrder) -> List<PlainGroup> {
    let mut below = List::new(answer.alloc);
    for composite in order.composites.as_slice() {
        let groups = listed(answer, order.buildpacks, below.as_slice(), composite);
        answer.done(below.push(groups));
    }
    let all = listed(answer, order.buildpacks, below.as_slice(), &order.groups);
    let mut groups = List::new(answer.alloc);
    for group in all.as_slice() {
        let group = first_of_each_id(answer, group.as_slice());
        answer.done(groups.push(group));
    }
    groups
}

// The groups that these stand for, one behind the other, where the composites so far stand for those `below`.
fn listed(
    answer: &mut Answer,
    buildpacks: u64,
    below: &[List<PlainGroup>],
    groups: &List<PlainGroup>,
) -> List<PlainGroup> {
    let mut all = List::new(answer.alloc);
    for group in groups.as_slice() {
        let groups = expanded(answer, buildpacks, below, group);
        for group in groups.as_slice() {
            push_joined(answer, &mut all, group.as_slice(), &[]);
        }
    }
    all
}

// The groups that one stands for: what is listed so far, with each choice for the next entry behind it.
fn expanded(
    answer: &mut Answer,
    buildpacks: u64,
    below: &[List<PlainGroup>],
    group: &PlainGroup,
) -> List<PlainGroup> {
    let mut fronts = List::new(answer.alloc);
    push_joined(answer, &mut fronts, &[], &[]);
    for entry in group.as_slice() {
        let mut all = List::new(answer.alloc);
        for front in fronts.as_slice() {
            push_choices(
                answer,
                buildpacks,
                below,
                &mut all,
                front.as_slice(),
                *entry,
            );
        }
        fronts = all;
    }
    fronts
}

// Adds the groups that go on behind this front: with a buildpack itself; with each group of a composite, and where it
// is optional with none last.
fn push_choices(
    answer: &mut Answer,
    buildpacks: u64,
    below: &[List<PlainGroup>],
    all: &mut List<PlainGroup>,
    front: &[PlainEntry],
    entry: PlainEntry,
) {
    let Some(composite) = entry.number.checked_sub(buildpacks) else {
        push_joined(answer, all, front, &[entry]);
        return;
    };
    if let Some(groups) = below.get(composite as usize) {
        for group in groups.as_slice() {
            push_joined(answer, all, front, group.as_slice());
        }
    }
    if entry.optional {
        push_joined(answer, all, front, &[]);
    }
}

// Adds a group of these entries, unless there are the most groups already.
fn push_joined(
    answer: &mut Answer,
    all: &mut List<PlainGroup>,
    front: &[PlainEntry],
    behind: &[PlainEntry],
) {
    if all.as_slice().len() < MOST {
        let mut group = List::new(answer.alloc);
        for entry in front.iter().chain(behind) {
            answer.done(group.push(*entry));
        }
        answer.done(all.push(group));
    }
}

fn first_of_each_id(answer: &mut Answer, group: &[PlainEntry]) -> PlainGroup {
    let mut kept = List::new(answer.alloc);
    for member in group {
        if !has_id(kept.as_slice(), member.number / 2) {
            answer.done(kept.push(*member));
        }
    }
    kept
}

fn has_id(members: &[PlainEntry], id: u64) -> bool {
    for member in members {
        if member.number / 2 == id {
            return true;
        }
    }
    false
}

/// Adds groups: their number, and each on a line.
pub(crate) fn put_groups(answer: &mut Answer, groups: &[PlainGroup]) {
    if groups.len() == MOST {
        answer.put("too many groups");
        return;
    }
    put_number(answer, groups.len() as u64, " groups\n");
    for group in groups {
        for member in group.as_slice() {
            put_member(answer, *member);
        }
        answer.put(".\n");
    }
}

fn put_member(answer: &mut Answer, member: PlainEntry) {
    let number = member.number;
    answer.put(" b");
    put_number(answer, number / 2, "@");
    put_number(answer, (number % 2).saturating_add(1), ".0.0");
    answer.put(if member.optional { "?" } else { "" });
    answer.put(if number % 3 == 0 { "!" } else { "" });
    for place in 0..number % 4 {
        answer.put("~");
        put_number(answer, number, ".");
        put_number(answer, place, "");
    }
}
