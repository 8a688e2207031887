// Calls of order_expand.
ghost use Rattle.std.specs.Prelude.{IsOk};
ghost use Rattle.order_expand.specs.Check.{checked};

use crate::buildpacks::{catalog, descriptors, order, put_key};
use bp_docs::Order;
use order_expand::{Catalog, CatalogFault, Group, Member, Walk, check};
use row_files::{Answer, Row};

/// Adds descriptors to a catalog, one after another.
pub(crate) fn add_all(answer: &mut Answer, row: &Row) {
    let mut catalog = Catalog::new(answer.alloc);
    for descriptor in descriptors(answer, row) {
        put_added(answer, &catalog.add(descriptor));
    }
}

fn put_added(answer: &mut Answer, added: &Result<(), CatalogFault>) {
    match added {
        Ok(()) => answer.put("added"),
        Err(fault) => answer.show(fault),
    }
    answer.put("\n");
}

/// The groups of an order over the row's descriptors.
pub(crate) fn expand(answer: &mut Answer, row: &Row) {
    let catalog = catalog(answer, row);
    put_order(answer, row, &catalog);
}

/// Adds the row's order over a catalog: how many groups it stands for, with these where the call isn't `check`, or why
/// it is refused.
pub(crate) fn put_order(answer: &mut Answer, row: &Row, catalog: &Catalog) {
    if let Some(order) = order(answer, row) {
        put_checked(answer, row.call.as_str(), &order, catalog);
    }
}

fn put_checked(answer: &mut Answer, call: &str, order: &Order, catalog: &Catalog) {
    match check(answer.alloc, order, catalog) {
        Ok(number) if call == "check" => put_number(answer, number),
        Ok(number) => put_walk(answer, call, order, catalog, number),
        Err(fault) => answer.show(&fault),
    }
}

fn put_number(answer: &mut Answer, number: u32) {
    answer.show(&number);
    answer.put(" groups");
}

fn put_walk(answer: &mut Answer, call: &str, order: &Order, catalog: &Catalog, number: u32)
    requires { IsOk (checked catalog.now order.now) }
{
    if let Some(mut walk) = answer.made(Walk::new(answer.alloc, order, catalog)) {
        match call {
            "walk_digits" => put_digits(answer, &mut walk),
            _ => put_groups(answer, &mut walk, number),
        }
    }
}

fn next_group(answer: &mut Answer, walk: &mut Walk<'_>) -> Option<Group> {
    answer.made(walk.next())?
}

fn put_groups(answer: &mut Answer, walk: &mut Walk<'_>, number: u32) {
    put_number(answer, number);
    answer.put("\n");
    for _ in 0..number {
        match next_group(answer, walk) {
            Some(group) => put_group(answer, group.as_slice()),
            None => answer.put("none"),
        }
        answer.put("\n");
    }
    if next_group(answer, walk).is_some() {
        answer.put("and more");
    }
}

// Whether the groups are those of all digits to the base of 8, of four composites, with `tail` behind them.
fn put_digits(answer: &mut Answer, walk: &mut Walk<'_>) {
    for number in 0..4096 {
        if !has_digits(answer, walk, number) {
            return;
        }
    }
    let end = match next_group(answer, walk) {
        Some(_) => "and more",
        None => "in the order of their digits",
    };
    answer.put_all(&["4096 groups ", end]);
}

// Whether the next group has the digits of a number. Where it has not, there is added what it is.
fn has_digits(answer: &mut Answer, walk: &mut Walk<'_>, number: u32) -> bool {
    match next_group(answer, walk) {
        Some(group) => is_of_digits(answer, group.as_slice(), number),
        None => {
            put_number(answer, number);
            false
        }
    }
}

fn is_of_digits(answer: &mut Answer, group: &[Member], number: u32) -> bool {
    let (mut found, mut want) = (Answer::new(answer.alloc), Answer::new(answer.alloc));
    put_group(&mut found, group);
    put_digits_of(&mut want, number);
    let (found, want) = (answer.taken(found), answer.taken(want));
    if found != want {
        answer.put("group ");
        answer.show(&number);
        answer.put_all(&[" is ", found.as_str()]);
    }
    found == want
}

fn put_digits_of(answer: &mut Answer, number: u32) {
    put_digit(answer, "c0-", number / 512);
    put_digit(answer, "@1.0.0 c1-", number / 64);
    put_digit(answer, "@1.0.0 c2-", number / 8);
    put_digit(answer, "@1.0.0 c3-", number);
    answer.put("@1.0.0 tail@1.0.0");
}

fn put_digit(answer: &mut Answer, front: &str, number: u32) {
    answer.put(front);
    answer.show(&(number % 8));
}

// Adds a group as `a@1.0.0 b@1.0.0?`, with `!` behind a buildpack that clears the environment.
fn put_group(answer: &mut Answer, group: &[Member]) {
    answer.put(if group.is_empty() { "no member" } else { "" });
    for (place, member) in group.iter().enumerate() {
        answer.put(if place == 0 { "" } else { " " });
        put_key(answer, &member.key);
        answer.put(if member.optional { "?" } else { "" });
        answer.put(if member.clear_env { "!" } else { "" });
    }
}
