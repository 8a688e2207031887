//! Goes through the rows of a folder: what the top call is given in memory, and what is wanted of it.
//!
//! Prints `ok NAME` for each row, or `differs NAME:` and what differs. The folder is the one that a word names, or else
//! the one that the program runs in; data/README.md says how a row is written.
#![tactic(auto)]

mod judging;
mod lying;
mod run;

use cnb_host::{HostWorld, words};
use judging::judge;
use lying::judge_lies;
use scenarios::{Answer, Fields, RowFault, Scenarios};
use std::alloc::Global;
use std::process::ExitCode;
use std::thread::Threads;
use std::{env, io};

// Adds what differs in a row and, where it says so, with each call failing in turn, or over worlds that tell nothing.
fn put_differences<R: Threads + Sync>(
    rt: &R,
    answer: &mut Answer,
    scenarios: &Scenarios,
    row: Fields,
) {
    let chain = scenarios.chain(answer, row);
    if let Some(statuses) = row.text("over-liars") {
        return judge_lies(rt, answer, &chain, statuses);
    }
    match row.fields("want") {
        Some(want) => judge(rt, answer, &chain, want, row.is_set("every-call")),
        None => answer.wrong("nothing is wanted of", row.text_or_empty("name")),
    }
}

// Prints the line of a row, and tells whether the row is as wanted.
fn tell<R: Threads + Sync + Print>(
    rt: &R,
    alloc: Global,
    scenarios: &Scenarios,
    row: Fields,
) -> io::Result<bool> {
    let mut answer = Answer::new(alloc);
    put_differences(rt, &mut answer, scenarios, row);
    let name = row.text_or_empty("name");
    match answer.end() {
        Ok(found) if found.is_empty() => {
            println!(rt; "ok {name}")?;
            Ok(true)
        }
        Ok(found) => {
            println!(rt; "differs {name}:{found}")?;
            Ok(false)
        }
        Err(fault) => {
            println!(rt; "wrong {name}: {fault}")?;
            Ok(false)
        }
    }
}

fn rows_folder(rt: &HostRuntime) -> Result<String, RowFault> {
    let Ok(words) = words(rt) else {
        return Err(RowFault::wrong(rt.alloc(), "the words are no", "text"));
    };
    if let Some(folder) = words.get(1) {
        return Ok(String::from_str(rt.alloc(), folder)?);
    }
    let folder = env::current_dir(rt)?;
    Ok(String::from_str(rt.alloc(), folder.as_str())?)
}

fn main(rt: HostRuntime) -> Result<ExitCode, RowFault> {
    let folder = rows_folder(&rt)?;
    let mut world = HostWorld::new(rt.clone()?);
    let mut answer = Answer::new(rt.alloc());
    let scenarios = Scenarios::read(&mut answer, &mut world, &folder);
    let rows = scenarios.rows(&mut answer);
    answer.end()?;
    let mut differ = 0u8;
    for row in rows.as_slice() {
        if !tell(&rt, rt.alloc(), &scenarios, *row)? {
            differ = 1;
        }
    }
    Ok(ExitCode::from(differ))
}
