//! Rows of names, documents and words: what each reader answers, and what each document is written as.
//!
//! Gone through are names (data/names.toml), metadata and documents as such (data/metadata.toml), orders, descriptors
//! and Build Plans (data/buildpacks.toml), the documents of a run (data/run.toml) and of images (data/images.toml),
//! documents in files (data/files.toml) and the words of a command line (data/store-words.toml,
//! data/record-words.toml, data/words.toml, data/options.toml).
//! data/README.md says how a row is written.
#![tactic(auto)]

mod buildpacks;
mod documents;
mod files;
mod given;
mod metadata;
mod names;
mod options;
mod words;

use row_files::{Row, RowFault, run};
use std::alloc::Global;
use std::process::ExitCode;

fn answer_on_words(alloc: Global, row: &Row) -> Result<String, RowFault> {
    match row.call.as_str() {
        "words" => words::told_words(alloc, row),
        "command of words" => words::told_command(alloc, row),
        "no words" => words::told_no_words(alloc),
        _ => documents::rewritten(alloc, row),
    }
}

fn answer_on_files(alloc: Global, row: &Row) -> Result<String, RowFault> {
    match row.call.as_str() {
        "document at a path" => files::told_at_path(alloc, row),
        "order at a path" => files::told_at_path(alloc, row),
        "folder at a path" => files::told_at_path(alloc, row),
        "names at a path" => files::told_at_path(alloc, row),
        _ => answer_on_words(alloc, row),
    }
}

fn answer_on_buildpacks(alloc: Global, row: &Row) -> Result<String, RowFault> {
    match row.call.as_str() {
        "read order" => buildpacks::told_order(alloc, row),
        "read buildpack" => buildpacks::told_buildpack(alloc, row),
        "read Build Plan" => buildpacks::told_build_plan(alloc, row),
        _ => answer_on_files(alloc, row),
    }
}

fn answer(rt: &HostRuntime, row: &Row) -> Result<String, RowFault> {
    let alloc = rt.alloc();
    match row.call.as_str() {
        "names" => names::kinds_of(alloc, row),
        "folder of an id" => names::folder_of(alloc, row),
        "read document" => metadata::told_document(alloc, row),
        "read metadata" => metadata::told_metadata(alloc, row),
        _ => answer_on_buildpacks(alloc, row),
    }
}

fn main(rt: HostRuntime) -> Result<ExitCode, RowFault> {
    run(
        &rt,
        &[
            "names.toml",
            "metadata.toml",
            "buildpacks.toml",
            "run.toml",
            "images.toml",
            "files.toml",
            "store-words.toml",
            "record-words.toml",
            "words.toml",
            "options.toml",
        ],
        answer,
    )
}
