// Orders that a generator makes up, whose groups are walked beside their plain listing.
ghost use Rattle.std.specs.Prelude.{IsOk};
ghost use Rattle.order_expand.specs.Check.{checked};

use crate::draws::Draws;
use crate::plain_groups::{MOST, PlainEntry, PlainGroup, PlainOrder, groups_of, put_groups};
use crate::texts::{Sums, is_wanted, key, put_number};
use bp_docs::{Body, Descriptor, Entry, Order, TargetRule, Targets};
use cnb_toml::Key;
use cnb_world::{List, Text};
use order_expand::{Catalog, Group, Member, Walk, check};
use row_files::Answer;

/// Walks the orders of the seeds from one to before another. The answer is how many groups they stand for, or the first
/// order whose groups are not those of the plain listing.
pub(crate) fn compare_walks(answer: &mut Answer, first: u64, end: u64) {
    let mut sums = Sums {
        first: 0,
        second: 0,
        third: 0,
    };
    for seed in first..end {
        if !is_walked(answer, &mut sums, seed) {
            return;
        }
    }
    put_number(answer, sums.first, " groups of ");
    put_number(answer, sums.second, " members; ");
    put_number(answer, sums.third, " orders of too many groups");
}

fn is_walked(answer: &mut Answer, sums: &mut Sums, seed: u64) -> bool {
    let order = drawn_order(answer, seed);
    let groups = groups_of(answer, &order);
    add(sums, groups.as_slice());
    let mut want = Answer::new(answer.alloc);
    put_groups(&mut want, groups.as_slice());
    let want = answer.taken(want);
    let mut found = Answer::new(answer.alloc);
    put_walk(&mut found, &order);
    let found = answer.taken(found);
    is_wanted(
        answer,
        "order ",
        seed,
        found.as_str(),
        "for ",
        want.as_str(),
    )
}

// Adds how many groups there are, how many members they have, and whether they are too many, of which none count.
fn add(sums: &mut Sums, groups: &[PlainGroup]) {
    if groups.len() == MOST {
        sums.add(0, 0, 1);
        return;
    }
    sums.add(groups.len() as u64, 0, 0);
    for group in groups {
        sums.add(0, group.as_slice().len() as u64, 0);
    }
}

// Adds the groups of an order as the call walks them, or why it is refused.
fn put_walk(answer: &mut Answer, order: &PlainOrder) {
    let catalog = catalog_of(answer, order);
    let groups = order_of(answer, order.buildpacks, &order.groups);
    match check(answer.alloc, &groups, &catalog) {
        Ok(number) => put_walked(answer, &groups, &catalog, number),
        Err(fault) => answer.show(&fault),
    }
}

// The groups of an order that stands for so many: their number, and each on a line.
fn put_walked(answer: &mut Answer, order: &Order, catalog: &Catalog, number: u32)
    requires { IsOk (checked catalog.now order.now) }
{
    if let Some(mut walk) = answer.made(Walk::new(answer.alloc, order, catalog)) {
        put_number(answer, u64::from(number), " groups\n");
        for _ in 0..number {
            if let Some(group) = next_group(answer, &mut walk) {
                put_group(answer, group.as_slice());
            }
        }
        if next_group(answer, &mut walk).is_some() {
            answer.put("and more");
        }
    }
}

fn next_group(answer: &mut Answer, walk: &mut Walk<'_>) -> Option<Group> {
    answer.made(walk.next())?
}

fn put_group(answer: &mut Answer, group: &[Member]) {
    for member in group {
        answer.put_all(&[
            " ",
            member.key.id.as_str(),
            "@",
            member.key.version.as_str(),
        ]);
        answer.put(if member.optional { "?" } else { "" });
        answer.put(if member.clear_env { "!" } else { "" });
        for rule in member.targets.as_slice() {
            if let (Some(os), None) = (&rule.os, &rule.arch) {
                answer.put_all(&["~", os.as_str()]);
            }
        }
    }
    answer.put(".\n");
}

// An order of one to three groups, over one to eight buildpacks and up to four composites.
fn drawn_order(answer: &mut Answer, seed: u64) -> PlainOrder {
    let mut draws = Draws::new(seed);
    let buildpacks = draws.below(8).saturating_add(1);
    let mut all = buildpacks;
    let mut composites = List::new(answer.alloc);
    for _ in 0..draws.below(5) {
        let groups = drawn_groups(answer, &mut draws, all, 2);
        answer.done(composites.push(groups));
        all = all.saturating_add(1);
    }
    let groups = drawn_groups(answer, &mut draws, all, 3);
    PlainOrder {
        buildpacks,
        composites,
        groups,
    }
}

// One group to so many, of one entry to so many.
fn drawn_groups(answer: &mut Answer, draws: &mut Draws, all: u64, most: u64) -> List<PlainGroup> {
    let mut groups = List::new(answer.alloc);
    for _ in 0..draws.below(most).saturating_add(1) {
        let mut group = List::new(answer.alloc);
        for _ in 0..draws.below(most).saturating_add(1) {
            let (number, optional) = (draws.below(all), draws.is_one_in(2));
            answer.done(group.push(PlainEntry { number, optional }));
        }
        answer.done(groups.push(group));
    }
    groups
}

fn catalog_of(answer: &mut Answer, order: &PlainOrder) -> Catalog {
    let mut catalog = Catalog::new(answer.alloc);
    for number in 0..order.buildpacks {
        if let Some(targets) = targets_of(answer, number) {
            let clear_env = number % 3 == 0;
            let body = Body::Component { clear_env, targets };
            add_body(answer, &mut catalog, order, number, body);
        }
    }
    for (place, groups) in order.composites.as_slice().iter().enumerate() {
        let body = Body::Composite(order_of(answer, order.buildpacks, groups));
        let number = order.buildpacks.saturating_add(place as u64);
        add_body(answer, &mut catalog, order, number, body);
    }
    catalog
}

// Adds the buildpack or composite of a number.
fn add_body(
    answer: &mut Answer,
    catalog: &mut Catalog,
    order: &PlainOrder,
    number: u64,
    body: Body,
) {
    if let Some(key) = key_of(answer, order.buildpacks, number) {
        if catalog.add(Descriptor { key, body }).is_err() {
            answer.wrong("there twice:", "descriptor");
        }
    }
}

fn key_of(answer: &mut Answer, buildpacks: u64, number: u64) -> Option<Key> {
    match number.checked_sub(buildpacks) {
        Some(composite) => key(answer, "o", composite, 1),
        None => key(answer, "b", number / 2, (number % 2).saturating_add(1)),
    }
}

// The targets of a buildpack, each of an operating system alone.
fn targets_of(answer: &mut Answer, number: u64) -> Option<Targets> {
    let mut rules = List::new(answer.alloc);
    for place in 0..number % 4 {
        let mut os = Answer::new(answer.alloc);
        put_number(&mut os, number, ".");
        put_number(&mut os, place, "");
        let os = Some(Text::from_string(answer.taken(os)));
        answer.done(rules.push(TargetRule { os, arch: None }));
    }
    answer.made(Targets::new(answer.alloc, rules))
}

fn order_of(answer: &mut Answer, buildpacks: u64, groups: &List<PlainGroup>) -> Order {
    let mut order = List::new(answer.alloc);
    for group in groups.as_slice() {
        let mut entries = List::new(answer.alloc);
        for entry in group.as_slice() {
            push_entry(answer, buildpacks, &mut entries, *entry);
        }
        answer.done(order.push(entries));
    }
    order
}

// An entry names a buildpack with its version, and a composite without.
fn push_entry(answer: &mut Answer, buildpacks: u64, entries: &mut List<Entry>, entry: PlainEntry) {
    if let Some(Key { id, version }) = key_of(answer, buildpacks, entry.number) {
        let is_component = entry.number < buildpacks;
        answer.done(entries.push(Entry {
            id,
            version: if is_component { Some(version) } else { None },
            optional: entry.optional,
        }));
    }
}
