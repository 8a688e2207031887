//! Rows of trees: their spellings and digests, trees in files and in stores, caches, the flags of layers, and the
//! documents of images in a store.
#![tactic(auto)]

mod flags;
mod images;
mod reading;
mod shared;
mod shelves;
mod stores;
mod trees;
mod watched;
mod words;
mod worlds;

use row_files::{Answer, Row, RowFault, run};
use std::process::ExitCode;

const FILES: [&str; 7] = [
    "spellings.toml",
    "digests.toml",
    "stores.toml",
    "laying.toml",
    "caches.toml",
    "layers.toml",
    "images.toml",
];

fn put_answer(answer: &mut Answer, row: &Row) {
    match row.call.as_str() {
        "decode" => trees::decoded(answer, row),
        "feed" => trees::fed(answer, row),
        "scan" => trees::scanned(answer, row),
        "events" => trees::events(answer, row),
        "make" => trees::made(answer, row),
        "target" => trees::target(answer, row),
        "judge" => trees::judged(answer, row),
        "digest" => trees::digest(answer, row),
        "read_digest" => trees::digest_read(answer, row),
        "store" => stores::called_in_turn(answer, row),
        "shelves" => shelves::called_in_turn(answer, row),
        "images" => images::called_in_turn(answer, row),
        "restore_row" => flags::restored(answer, row),
        "export_row" => flags::exported(answer, row),
        call => answer.wrong("no such call:", call),
    }
}

fn answer(rt: &HostRuntime, row: &Row) -> Result<String, RowFault> {
    let mut answer = Answer::new(rt.alloc());
    put_answer(&mut answer, row);
    answer.end_of_line()
}

fn main(rt: HostRuntime) -> Result<ExitCode, RowFault> {
    run(&rt, &FILES, answer)
}
