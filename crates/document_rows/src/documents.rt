// Documents that are read and written: what is written of what was read, once that was read and written again.
use crate::given::{given_bytes, told};
use cnb_toml::DocFault;
use cnb_world::{Bytes, Memory};
use image_docs::{
    read_analyzed, read_cache, read_image, read_launch_doc, read_run, write_analyzed, write_cache,
    write_image, write_launch_doc, write_run,
};
use row_files::{Row, RowFault};
use run_docs::{
    read_bp_plan, read_build, read_group, read_launch, read_layer, read_plan, read_store,
    write_bp_plan, write_build, write_group, write_launch, write_layer, write_plan, write_store,
};
use std::alloc::Global;

fn as_answer(written: Result<Bytes, Memory>) -> Result<Bytes, DocFault> {
    Ok(written?)
}

fn group(alloc: Global, bytes: &[u8]) -> Result<Bytes, DocFault> {
    as_answer(write_group(alloc, &read_group(alloc, bytes)?))
}

fn plan(alloc: Global, bytes: &[u8]) -> Result<Bytes, DocFault> {
    as_answer(write_plan(alloc, &read_plan(alloc, bytes)?))
}

fn layer(alloc: Global, bytes: &[u8]) -> Result<Bytes, DocFault> {
    as_answer(write_layer(alloc, &read_layer(alloc, bytes)?))
}

fn store(alloc: Global, bytes: &[u8]) -> Result<Bytes, DocFault> {
    as_answer(write_store(alloc, &read_store(alloc, bytes)?))
}

fn buildpack_plan(alloc: Global, bytes: &[u8]) -> Result<Bytes, DocFault> {
    as_answer(write_bp_plan(alloc, &read_bp_plan(alloc, bytes)?))
}

fn launch(alloc: Global, bytes: &[u8]) -> Result<Bytes, DocFault> {
    as_answer(write_launch(alloc, &read_launch(alloc, bytes)?))
}

fn build(alloc: Global, bytes: &[u8]) -> Result<Bytes, DocFault> {
    as_answer(write_build(alloc, &read_build(alloc, bytes)?))
}

fn run_image(alloc: Global, bytes: &[u8]) -> Result<Bytes, DocFault> {
    as_answer(write_run(alloc, &read_run(alloc, bytes)?))
}

fn analyzed(alloc: Global, bytes: &[u8]) -> Result<Bytes, DocFault> {
    as_answer(write_analyzed(alloc, &read_analyzed(alloc, bytes)?))
}

fn launch_document(alloc: Global, bytes: &[u8]) -> Result<Bytes, DocFault> {
    as_answer(write_launch_doc(alloc, &read_launch_doc(alloc, bytes)?))
}

fn cache(alloc: Global, bytes: &[u8]) -> Result<Bytes, DocFault> {
    as_answer(write_cache(alloc, &read_cache(alloc, bytes)?))
}

fn image(alloc: Global, bytes: &[u8]) -> Result<Bytes, DocFault> {
    as_answer(write_image(alloc, &read_image(alloc, bytes)?))
}

// What is written of a document of an image.
fn of_image(alloc: Global, call: &str, bytes: &[u8]) -> Result<Bytes, DocFault> {
    match call {
        "read run image" => run_image(alloc, bytes),
        "read analyzed" => analyzed(alloc, bytes),
        "read launch document" => launch_document(alloc, bytes),
        "read cache" => cache(alloc, bytes),
        "read image" => image(alloc, bytes),
        _ => Err(DocFault::missing(alloc, call)),
    }
}

// What is written of a document of a buildpack.
fn of_buildpack(alloc: Global, call: &str, bytes: &[u8]) -> Result<Bytes, DocFault> {
    match call {
        "read layer" => layer(alloc, bytes),
        "read store" => store(alloc, bytes),
        "read launch" => launch(alloc, bytes),
        "read build" => build(alloc, bytes),
        _ => of_image(alloc, call, bytes),
    }
}

// What is written of the document that a call names.
fn written(alloc: Global, call: &str, bytes: &[u8]) -> Result<Bytes, DocFault> {
    match call {
        "read group" => group(alloc, bytes),
        "read plan" => plan(alloc, bytes),
        "read Buildpack Plan" => buildpack_plan(alloc, bytes),
        _ => of_buildpack(alloc, call, bytes),
    }
}

// The text of a document that is read and written twice.
fn again(alloc: Global, call: &str, bytes: &[u8]) -> Result<String, DocFault> {
    let once = written(alloc, call, bytes)?;
    let twice = written(alloc, call, once.as_slice())?;
    match String::from_utf8_lossy(alloc, twice.as_slice()) {
        Ok(text) => Ok(text),
        Err(_) => Err(DocFault::Memory),
    }
}

/// The text of the document that a row names.
pub(crate) fn rewritten(alloc: Global, row: &Row) -> Result<String, RowFault> {
    let bytes = given_bytes(alloc, row)?;
    told(alloc, again(alloc, row.call.as_str(), &bytes))
}
