//! Rows of the outside: what calls on files, children, caches and outputs answer.
//!
//! Most rows are scripts, a call a line. A script is played in memory or on the system, or in both, where the answers
//! must be the same: so the world in memory, over which all else is tested, is compared with the system. Rows of memory
//! alone have calls that fail by their numbers. Rows of the system alone have what only it has: real children, also
//! side by side, names that are no text, and a cache on whose files the system fails. Other rows are of paths,
//! environments, outputs, and what a process was started with.
#![tactic(auto)]

mod cache;
mod children;
mod fault;
mod faulty;
mod files;
mod memory;
mod output;
mod paths;
mod side_by_side;
mod stage;
mod start;
mod system;
mod texts;
mod things;
mod variables;

use fault::LineFault;
use memory::in_memory;
use output::written;
use paths::{beside, joined, paths};
use row_files::{Row, RowFault, run};
use side_by_side::side_by_side;
use start::{read_environment, read_words};
use std::process::ExitCode;
use std::thread::Threads;
use system::{on_faulty_system, on_system};
use variables::{ascending, variables};

// Plays a script in memory and on the system.
fn in_both(rt: &HostRuntime, row: &Row) -> Result<String, LineFault> {
    let memory = in_memory(rt, row)?;
    let system = on_system(rt, row)?;
    if memory == system {
        return Ok(memory);
    }
    Ok(format!(in rt.alloc(); "in memory:\n{memory}on the system:\n{system}")?)
}

fn answer_of<R: Threads + Sync>(
    threads: &R,
    rt: &HostRuntime,
    row: &Row,
) -> Result<String, LineFault> {
    match row.call.as_str() {
        "both" => in_both(rt, row),
        "memory" => in_memory(rt, row),
        "system" => Ok(on_system(rt, row)?),
        "faulty" => Ok(on_faulty_system(rt, row)?),
        "side by side" => side_by_side(threads, rt, row),
        "written" => written(rt, row),
        "paths" => Ok(paths(rt.alloc(), row)?),
        "joined" => Ok(joined(rt.alloc(), row)?),
        "beside" => Ok(beside(rt.alloc(), row)?),
        "variables" => variables(rt.alloc(), row),
        "ascending" => ascending(rt.alloc(), row),
        "words" => read_words(rt.alloc(), row),
        "environment" => read_environment(rt.alloc(), row),
        call => Err(RowFault::wrong(rt.alloc(), "no such call:", call).into()),
    }
}

fn answer<R: Threads + Sync>(threads: &R, rt: &HostRuntime, row: &Row) -> Result<String, RowFault> {
    match answer_of(threads, rt, row) {
        Ok(text) => Ok(text),
        Err(LineFault::Failed) => Ok(String::from_str(rt.alloc(), "failed\n")?),
        Err(LineFault::Row(fault)) => Err(fault),
    }
}

fn main(rt: HostRuntime) -> Result<ExitCode, RowFault> {
    run(
        &rt,
        &["files.toml", "children.toml", "caches.toml", "values.toml"],
        |system: &HostRuntime, row: &Row| answer(&rt, system, row),
    )
}
