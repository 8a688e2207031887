// The bytes that spell a tree, written here anew from the description of the format.
use crate::standing::Standing;
use cnb_world::Bytes;
use row_files::Answer;

/// How many levels of nodes a tree of a row may have.
const MAX_LEVELS: u32 = 16;

/// Adds the spelling of what stands at a path.
pub(crate) fn put_spelling(answer: &mut Answer, out: &mut Bytes, standing: &Standing, path: &str) {
    put(answer, out, b"CNBT\x01");
    spell(answer, out, standing, path, MAX_LEVELS);
}

fn put(answer: &mut Answer, out: &mut Bytes, bytes: &[u8]) {
    answer.done(out.append(bytes));
}

fn too_large(answer: &mut Answer, path: &str) {
    answer.wrong("no tree is so large:", path);
}

// A name or a target, behind its length.
fn put_text(answer: &mut Answer, out: &mut Bytes, path: &str, text: &[u8]) {
    match u16::try_from(text.len()) {
        Ok(length) => {
            put(answer, out, &length.to_be_bytes());
            put(answer, out, text);
        }
        Err(_) => too_large(answer, path),
    }
}

fn put_file(answer: &mut Answer, out: &mut Bytes, exec: u8, bytes: &[u8]) {
    put(answer, out, &[b'F', exec]);
    put(answer, out, &(bytes.len() as u64).to_be_bytes());
    put(answer, out, bytes);
}

// The name that a path has in a folder, where it stands right in it.
fn name_in<'a>(folder: &str, path: &'a str) -> Option<&'a str> {
    match path.rsplit_once('/') {
        Some((parent, name)) if parent == folder => Some(name),
        _ => None,
    }
}

fn put_count(answer: &mut Answer, out: &mut Bytes, standing: &Standing, folder: &str) {
    let mut count = 0u32;
    for (path, _) in &standing.found {
        if name_in(folder, path).is_some() {
            count = count.saturating_add(1);
        }
    }
    put(answer, out, b"D");
    put(answer, out, &count.to_be_bytes());
}

#[cycle(spell)]
fn spell_names(
    answer: &mut Answer,
    out: &mut Bytes,
    standing: &Standing,
    folder: &str,
    levels: u32,
) {
    put_count(answer, out, standing, folder);
    for (path, _) in &standing.found {
        if let Some(name) = name_in(folder, path) {
            put_text(answer, out, path, name.as_bytes());
            spell(answer, out, standing, path, levels);
        }
    }
}

#[cycle(spell)]
fn spell(answer: &mut Answer, out: &mut Bytes, standing: &Standing, path: &str, levels: u32) {
    if levels == 0 {
        return too_large(answer, path);
    }
    let bytes = standing.bytes(path);
    match standing.kind(path) {
        "folder" => spell_names(answer, out, standing, path, levels - 1),
        "file" => put_file(answer, out, 0, bytes),
        "executable" => put_file(answer, out, 1, bytes),
        "link" => {
            put(answer, out, b"L");
            put_text(answer, out, path, bytes);
        }
        _ => answer.wrong("no tree has", path),
    }
}
