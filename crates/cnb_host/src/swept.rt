// What a cache keeps that its rows no longer name.

use crate::fault::HostFault;
use crate::files::kind_at;
use crate::shelf::read_rows_at;
use cnb_world::{Kind, LONGEST_DOCUMENT, Path};
use std::os::unix::fs::FileExt;
use std::rt::Files;
use std::{fs, str};

/// How many digits name a tree.
const DIGITS: usize = 64;

/// Removes the trees of a cache that its rows do not name, and the unfinished files of calls that failed. A folder that is
/// a store, too, is left alone, and so is a cache whose rows can't be read. What can't be removed is left.
pub fn sweep_cache<R: Files + AllocGlobal + Clone + Drop>(rt: &R, folder: &Path)
where
    R::File: FileExt,
{
    let _ = sweep(rt, folder.as_str());
}

fn sweep<R: Files + AllocGlobal + Clone + Drop>(rt: &R, folder: &str) -> Result<(), HostFault>
where
    R::File: FileExt,
{
    if is_store(rt, folder)? {
        return Ok(());
    }
    let rows = read_rows_at(rt, rt.alloc(), folder)?;
    match str::from_utf8(rows.as_slice()) {
        Ok(rows) if rows.len() <= LONGEST_DOCUMENT => sweep_trees(rt, folder, rows),
        _ => Ok(()),
    }
}

// Whether images or run images are kept in the folder.
fn is_store<R: Files + AllocGlobal>(rt: &R, folder: &str) -> Result<bool, HostFault> {
    let images = format!(in rt.alloc(); "{folder}/images")?;
    let runs = format!(in rt.alloc(); "{folder}/runs")?;
    Ok(kind_at(rt, images.as_str())? != Kind::Absent || kind_at(rt, runs.as_str())? != Kind::Absent)
}

fn sweep_trees<R: Files + AllocGlobal + Clone + Drop>(
    rt: &R,
    folder: &str,
    rows: &str,
) -> Result<(), HostFault> {
    let trees = format!(in rt.alloc(); "{folder}/trees")?;
    for entry in fs::read_dir(rt, trees.as_str())? {
        let entry = entry?;
        if !is_kept(entry.file_name(), rows) {
            fs::remove_file(rt, entry.path())?;
        }
    }
    Ok(())
}

// A file of another name than a tree's is not the cache's own.
fn is_kept(name: &str, rows: &str) -> bool {
    let (digest, is_unfinished) = match name.strip_suffix(".new") {
        Some(digest) => (digest, true),
        None => (name, false),
    };
    if !is_digest(digest) {
        return true;
    }
    !is_unfinished && rows.contains(digest)
}

fn is_digest(name: &str) -> bool {
    name.len() == DIGITS && name.bytes().all(|byte| byte.is_ascii_hexdigit())
}
