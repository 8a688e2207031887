//! Goes through rows of orders and tables that a generator makes up: calls are compared with plain bodies that look at
//! everything, one thing after another.
//!
//! data/README.md says how a row is written.
#![tactic(auto)]

mod drawn_orders;
mod drawn_trials;
mod draws;
mod plain_groups;
mod plain_trials;
mod texts;

use drawn_orders::compare_walks;
use drawn_trials::compare_trials;
use row_files::{Answer, Row, RowFault, run};
use std::process::ExitCode;

const FILES: [&str; 2] = ["orders.toml", "trials.toml"];

fn answer(rt: &HostRuntime, row: &Row) -> Result<String, RowFault> {
    let mut answer = Answer::new(rt.alloc());
    put_answer(&mut answer, row);
    answer.end()
}

fn put_answer(answer: &mut Answer, row: &Row) {
    let (first, count) = (number(answer, row, "first"), number(answer, row, "count"));
    let end = first.saturating_add(count);
    match row.call.as_str() {
        "walk" => compare_walks(answer, first, end),
        "resolve" => compare_trials(answer, first, end),
        call => answer.wrong("no such call:", call),
    }
}

fn number(answer: &mut Answer, row: &Row, name: &str) -> u64 {
    match answer.given(row, name).parse() {
        Ok(number) => number,
        Err(_) => {
            answer.wrong("no number is given as", name);
            0
        }
    }
}

fn main(rt: HostRuntime) -> Result<ExitCode, RowFault> {
    run(&rt, &FILES, answer)
}
