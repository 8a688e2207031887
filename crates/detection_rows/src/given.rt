// What a row is given.
ghost use Rattle.std.specs.Prelude.{◌≤◌, IfSome, length};

use cnb_world::Path;
use row_files::{Answer, Row, RowFault};
use std::fmt::Display;

/// A row, with the system's clock.
#[derive(Clone, Copy)]
pub struct Given<'a> {
    pub clock: &'a HostRuntime,
    pub row: &'a Row,
}

/// The number under a name.
pub(crate) fn number_given(answer: &mut Answer, row: &Row, name: &str) -> u64 {
    match answer.given(row, name).parse() {
        Ok(number) => number,
        Err(_) => {
            answer.wrong("no number is given as", name);
            0
        }
    }
}

/// The number under a name, or this one where there is no such name.
pub(crate) fn number_or(answer: &mut Answer, row: &Row, name: &str, number: u64) -> u64 {
    match row.given.get(name) {
        Some(_) => number_given(answer, row, name),
        None => number,
    }
}

/// The number under a name, which is at most 64.
pub(crate) fn count_given(answer: &mut Answer, row: &Row, name: &str) -> u32
    ensures { result ≤ 64 }
{
    let number = number_given(answer, row, name);
    if number > 64 {
        answer.wrong("too many:", name);
        return 0;
    }
    number as u32
}

/// The path under a name.
pub(crate) fn path_given(answer: &mut Answer, row: &Row, name: &str) -> Option<Path>
    ensures { IfSome result (λ path. length path ≤ 4096) }
{
    let text = answer.given(row, name);
    answer.path(text)
}

/// The row is at fault, as a call's fault says, with these texts behind it.
pub(crate) fn refuse<F: Display>(answer: &mut Answer, fault: &F, mark: &str, text: &str) {
    match format!(in answer.alloc; "{fault}{mark}{text}") {
        Ok(text) => answer.fail(RowFault::Wrong(text)),
        Err(error) => answer.fail(RowFault::Memory(error)),
    }
}

/// The text, in which `<each>` stands for as many copies of the row's `each` as its `times` says.
pub(crate) fn expanded(answer: &mut Answer, row: &Row, text: &str) -> String {
    let mut whole = Answer::new(answer.alloc);
    put_expanded(&mut whole, row, text);
    answer.taken(whole)
}

fn put_expanded(answer: &mut Answer, row: &Row, text: &str) {
    let Some((front, behind)) = text.split_once("<each>") else {
        answer.put(text);
        return;
    };
    answer.put(front);
    let each = answer.given(row, "each");
    for number in 0..number_given(answer, row, "times") {
        put_copy(answer, each, number);
    }
    answer.put(behind);
}

// Adds a copy, in which `<n>` stands for its number from 0, and `<next>` for that of the copy behind it.
fn put_copy(answer: &mut Answer, each: &str, number: u64) {
    for (place, part) in each.split("<").enumerate() {
        if place == 0 {
            answer.put(part);
        } else {
            put_marked(answer, part, number);
        }
    }
}

// Adds what stands behind a `<`, with a number in place of `n>` and `next>`.
fn put_marked(answer: &mut Answer, part: &str, number: u64) {
    if let Some(rest) = part.strip_prefix("n>") {
        answer.show(&number);
        answer.put(rest);
    } else if let Some(rest) = part.strip_prefix("next>") {
        answer.show(&number.saturating_add(1));
        answer.put(rest);
    } else {
        answer.put_all(&["<", part]);
    }
}
