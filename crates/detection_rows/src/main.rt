//! Goes through the rows of detection: how orders are expanded and read from files, which trials of a group pass, what
//! a detection chooses over several spawners and threads, how jobs are shared, and what goes into a child's
//! environment.
//!
//! data/README.md says how a row is written.
#![tactic(auto)]

mod alike;
mod buildpacks;
mod detection;
mod environments;
mod files;
mod given;
mod meeting;
mod orders;
mod plans;
mod pool;
mod random;

use given::Given;
use row_files::{Answer, Row, RowFault, run};
use std::process::ExitCode;
use std::thread::Threads;

const FILES: [&str; 8] = [
    "orders.toml",
    "order_files.toml",
    "plans.toml",
    "drawn.toml",
    "detection.toml",
    "random.toml",
    "pool.toml",
    "environments.toml",
];

fn answer<R: Threads + Sync>(rt: &R, clock: &HostRuntime, row: &Row) -> Result<String, RowFault> {
    let mut answer = Answer::new(clock.alloc());
    put_answer(rt, &mut answer, &Given { clock, row });
    match answer.end() {
        Ok(text) => Ok(String::from_str(clock.alloc(), text.as_str().trim_end())?),
        Err(fault) => Err(fault),
    }
}

fn put_answer<R: Threads + Sync>(rt: &R, answer: &mut Answer, given: &Given) {
    match given.row.call.as_str() {
        "detect" => detection::choose(rt, answer, given),
        "detect_random" => alike::compare_orders(rt, answer, given),
        "run_all" => pool::run_jobs(rt, answer, given),
        call => put_unthreaded(answer, given.row, call),
    }
}

// What a call answers that takes no threads.
fn put_unthreaded(answer: &mut Answer, row: &Row, call: &str) {
    match call {
        "answer" => detection::judge(answer, row),
        "round" => pool::round_of_two(answer),
        "tickets" => pool::draw_tickets(answer, row),
        "each_job_has_one_answer" => pool::one_answer(answer),
        "add" => orders::add_all(answer, row),
        "check" | "walk" | "walk_digits" => orders::expand(answer, row),
        "read_order_file" | "contents" => files::read(answer, row, "path"),
        "read_catalog" => files::read(answer, row, "folder"),
        "platform_files" => files::read(answer, row, "platform"),
        "kept" => plans::keep(answer, row),
        "resolve" => plans::first_trial(answer, row),
        "ascending" => plans::sort_names(answer, row),
        "has_name" => plans::find_name(answer, row),
        call => put_environment(answer, row, call),
    }
}

fn put_environment(answer: &mut Answer, row: &Row, call: &str) {
    match call {
        "apply_file" => environments::apply(answer, row),
        "env_folder" => environments::apply_folder(answer, row),
        "layer_paths" => environments::put_paths(answer, row),
        "build_env" => environments::make_build_env(answer, row),
        "launch_env" => environments::make_launch_env(answer, row),
        "platform" => environments::apply_platform(answer, row),
        "base_env" => environments::begin(answer, row),
        "set_path" => environments::put_path(answer, row),
        "set_target" => environments::put_target(answer, row),
        "buildpack_folder" => environments::places(answer, row),
        call => answer.wrong("no such call:", call),
    }
}

fn main(rt: HostRuntime) -> Result<ExitCode, RowFault> {
    run(
        &rt,
        &FILES,
        |clock: &HostRuntime, row: &Row| answer(&rt, clock, row),
    )
}
