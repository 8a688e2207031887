// Calls of image_files: the documents of images and run images in the store at `/s`.
ghost use Rattle.std.specs.Prelude.{◌≤◌, length};

use crate::reading::cut;
use crate::words::put_bytes;
use crate::worlds::world_of;
use cnb_toml::ImageName;
use cnb_world::{Bytes, List, MemWorld, Memory, Path};
use doc_files::write_document;
use image_docs::{ImageDoc, RunDoc, write_image, write_run};
use image_files::{
    ImageFault, base_of, find_document, image_env, image_path, push_run_rows, read_image,
    read_run_image, run_path, save_image, save_run_image,
};
use row_files::{Answer, Row};
use std::alloc::Global;
use tree_canon::Digest;

fn put_fault(answer: &mut Answer, fault: &ImageFault) {
    match fault {
        ImageFault::NoImage(name) => answer.put_all(&["NoImage ", name.as_str()]),
        ImageFault::Document(path, fault) => {
            answer.put_all(&["Document ", path.as_str(), ": "]);
            answer.show(fault);
        }
        ImageFault::Limit(kind) => {
            answer.put("Limit ");
            answer.debug(kind);
        }
        ImageFault::File(path) => answer.put_all(&["File ", path.as_str()]),
        ImageFault::Memory => answer.run_out(),
    }
}

fn put_image(answer: &mut Answer, image: &Result<ImageDoc, ImageFault>) {
    match image {
        Ok(image) => put_document(answer, &write_image(answer.alloc, image)),
        Err(fault) => put_fault(answer, fault),
    }
}

fn put_run_image(answer: &mut Answer, image: &Result<RunDoc, ImageFault>) {
    match image {
        Ok(image) => put_document(answer, &write_run(answer.alloc, image)),
        Err(fault) => put_fault(answer, fault),
    }
}

fn put_document(answer: &mut Answer, written: &Result<Bytes, Memory>) {
    match written {
        Ok(bytes) => {
            let bytes = bytes.as_slice();
            answer.put("a document\n");
            put_bytes(answer, bytes.strip_suffix(b"\n").unwrap_or(bytes));
        }
        Err(Memory) => answer.run_out(),
    }
}

fn put_done(answer: &mut Answer, done: &Result<(), ImageFault>) {
    match done {
        Ok(()) => answer.put("done"),
        Err(fault) => put_fault(answer, fault),
    }
}

fn put_path(answer: &mut Answer, path: &Result<Path, Memory>) {
    match path {
        Ok(path) => answer.put_all(&["at ", path.as_str()]),
        Err(Memory) => answer.run_out(),
    }
}

fn name_of(answer: &mut Answer, text: &str) -> Option<ImageName> {
    match ImageName::parse(answer.alloc, text) {
        Ok(name) => Some(name),
        Err(_) => {
            answer.wrong("no image's name:", text);
            None
        }
    }
}

// Saves the image of a name under another one.
fn save_as(
    alloc: Global,
    world: &mut MemWorld,
    store: &Path,
    name: &ImageName,
    other: &ImageName,
) -> Result<(), ImageFault>
    requires { length store.now ≤ 4096 }
{
    let image = read_image(alloc, world, store, name)?;
    save_image(alloc, world, store, other, &image)
}

// Saves the run image of a name under another one.
fn save_run_as(
    alloc: Global,
    world: &mut MemWorld,
    store: &Path,
    name: &ImageName,
    other: &ImageName,
) -> Result<(), ImageFault>
    requires { length store.now ≤ 4096 }
{
    let image = read_run_image(alloc, world, store, name)?;
    save_run_image(alloc, world, store, other, &image)
}

// Adds what an image notes of a run image, with the digest of no bytes where that has no rows.
fn put_base(answer: &mut Answer, name: &ImageName, run: &RunDoc) {
    if let Some(base) = answer.made(base_of(answer.alloc, name, run, Digest::of(b""))) {
        let (name, os, arch) = (base.name.as_str(), base.os.as_str(), base.arch.as_str());
        answer.put_all(&[name, " ", os, "/", arch, " "]);
        answer.put_made(base.top.text(answer.alloc));
    }
}

fn put_env(answer: &mut Answer, run: &RunDoc) {
    if let Some(env) = answer.made(image_env(answer.alloc, &run.env)) {
        for variable in env.variables() {
            answer.put_all(&["\n", variable.name.as_str(), "=", variable.value.as_str()]);
        }
    }
}

fn put_rows(answer: &mut Answer, name: &ImageName, run: &RunDoc) {
    let mut rows = List::new(answer.alloc);
    answer.done(push_run_rows(answer.alloc, &mut rows, name, run.rows.as_slice()));
    for row in rows.as_slice() {
        answer.put_all(&["\n", row.role.as_str(), " ", row.place.as_str(), " "]);
        answer.put_made(row.digest.text(answer.alloc));
        answer.put_all(&[" ", row.by.as_str()]);
    }
}

// Adds what an image takes from a run image.
fn put_taken(answer: &mut Answer, run: &RunDoc, call: &str, name: &ImageName) {
    match call {
        "image_env" => put_env(answer, run),
        "push_run_rows" => put_rows(answer, name, run),
        "base_of" | "base_of_no_rows" => put_base(answer, name, run),
        _ => answer.wrong("no such call:", call),
    }
}

fn take(answer: &mut Answer, world: &mut MemWorld, store: &Path, call: &str, name: &ImageName)
    requires { length store.now ≤ 4096 }
{
    let Ok(mut run) = read_run_image(answer.alloc, world, store, name) else {
        answer.wrong("no run image:", name.as_str());
        return;
    };
    if call == "base_of_no_rows" {
        run.rows = List::new(answer.alloc);
    }
    put_taken(answer, &run, call, name);
}

fn call_named(
    answer: &mut Answer,
    world: &mut MemWorld,
    store: &Path,
    call: &str,
    name: &ImageName,
    other: &ImageName,
)
    requires { length store.now ≤ 4096 }
{
    let alloc = answer.alloc;
    match call {
        "read_image" => put_image(answer, &read_image(alloc, world, store, name)),
        "read_run_image" => put_run_image(answer, &read_run_image(alloc, world, store, name)),
        "save_image" => put_done(answer, &save_as(alloc, world, store, name, other)),
        "save_run_image" => put_done(answer, &save_run_as(alloc, world, store, name, other)),
        "image_path" => put_path(answer, &image_path(alloc, store, name)),
        "run_path" => put_path(answer, &run_path(alloc, store, name)),
        _ => take(answer, world, store, call, name),
    }
}

// The run image at a path, where one is there.
fn find_run(
    alloc: Global,
    world: &mut MemWorld,
    path: &Path,
) -> Result<Option<RunDoc>, ImageFault> {
    Ok(find_document::<MemWorld, RunDoc>(alloc, world, path)?)
}

fn put_found(answer: &mut Answer, found: &Result<Option<RunDoc>, ImageFault>) {
    match found {
        Ok(Some(run)) => put_document(answer, &write_run(answer.alloc, run)),
        Ok(None) => answer.put("none"),
        Err(fault) => put_fault(answer, fault),
    }
}

// Looks for a run image at a path, or writes a document `notes.toml` with this text into the folder there.
fn call_at(answer: &mut Answer, world: &mut MemWorld, call: &str, path: &str) {
    let alloc = answer.alloc;
    let Some(path) = answer.path(path) else {
        return;
    };
    match call {
        "find_document" => put_found(answer, &find_run(alloc, world, &path)),
        _ => put_done(
            answer,
            &write_document(alloc, world, &path, "notes.toml", b"x = 1\n"),
        ),
    }
}

fn call_once(answer: &mut Answer, world: &mut MemWorld, store: &Path, line: &str)
    requires { length store.now ≤ 4096 }
{
    let (call, words) = cut(line);
    if call == "find_document" || call == "write_document" {
        call_at(answer, world, call, words);
        return;
    }
    let (name, other) = words.split_once(' ').unwrap_or((words, words));
    if let (Some(name), Some(other)) = (name_of(answer, name), name_of(answer, other)) {
        call_named(answer, world, store, call, &name, &other);
    }
}

fn call_each(answer: &mut Answer, world: &mut MemWorld, lines: &str) {
    let Some(store) = answer.path("/s") else {
        return;
    };
    for line in lines.lines() {
        answer.put_all(&[line, ": "]);
        call_once(answer, world, &store, line);
        answer.put("\n");
    }
}

/// What calls answer, one after another in one world.
pub(crate) fn called_in_turn(answer: &mut Answer, row: &Row) {
    let lines = answer.given(row, "calls");
    if let Some(mut world) = world_of(answer, row) {
        call_each(answer, &mut world, lines);
    }
}
