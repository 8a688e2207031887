// Paths.
use crate::fault::LineFault;
use crate::texts::{add_line, path_of, written_out};
use cnb_world::{Path, is_part, parent_text};
use row_files::{Row, RowFault};
use std::alloc::{AllocError, Global};

// A long text is told by its number of bytes.
fn brief(alloc: Global, text: &str) -> Result<String, AllocError> {
    if text.len() > 100 {
        format!(in alloc; "{} bytes", text.len())
    } else {
        String::from_str(alloc, text)
    }
}

/// For each of the given texts: the parent of the path that it is, and whether it is short.
pub(crate) fn paths(alloc: Global, row: &Row) -> Result<String, RowFault> {
    let mut told = String::new(alloc);
    for text in row.text(alloc, "texts")?.lines() {
        let text = written_out(alloc, text)?;
        add_line(&mut told, path_text(alloc, text.as_str()))?;
    }
    Ok(told)
}

fn path_text(alloc: Global, text: &str) -> Result<String, LineFault> {
    let path = Path::parse(alloc, text)?.copy(alloc)?;
    let parent = path.parent(alloc)?;
    if parent.as_str() != parent_text(text) {
        return Err(RowFault::wrong(alloc, "two parents of", text).into());
    }
    let parent = brief(alloc, parent.as_str())?;
    match Path::parse_short(alloc, text) {
        Ok(short) if Path::is_short(short.as_str()) => Ok(format!(in alloc; "in {parent}")?),
        _ => Ok(format!(in alloc; "long, in {parent}")?),
    }
}

/// For each of the given names: the path of that name in the folder, or where it is no part of a path, what it joins
/// to.
pub(crate) fn joined(alloc: Global, row: &Row) -> Result<String, RowFault> {
    let folder = path_of(alloc, row.text(alloc, "folder")?)?;
    let mut told = String::new(alloc);
    for name in row.text(alloc, "names")?.lines() {
        let name = written_out(alloc, name)?;
        add_line(&mut told, joined_text(alloc, &folder, name.as_str()))?;
    }
    Ok(told)
}

fn joined_text(alloc: Global, folder: &Path, name: &str) -> Result<String, LineFault> {
    let path = folder.join(alloc, name)?;
    let text = brief(alloc, path.as_str())?;
    if !is_part(name.as_bytes()) {
        return Ok(format!(in alloc; "{text}, of parts")?);
    }
    if path.as_str().len() <= 32768 && folder.below(alloc, name)?.as_str() != path.as_str() {
        return Err(RowFault::wrong(alloc, "another path below for", name).into());
    }
    Ok(text)
}

/// What stands beside each of the given paths while it is written.
pub(crate) fn beside(alloc: Global, row: &Row) -> Result<String, RowFault> {
    let mut told = String::new(alloc);
    for text in row.text(alloc, "texts")?.lines() {
        let text = written_out(alloc, text)?;
        add_line(&mut told, beside_text(alloc, text.as_str()))?;
    }
    Ok(told)
}

fn beside_text(alloc: Global, text: &str) -> Result<String, LineFault> {
    let path = path_of(alloc, text)?;
    let mut unfinished = String::from_str(alloc, path.as_str())?;
    unfinished.push_str(".new")?;
    if !Path::is_path(unfinished.as_str()) {
        return Err(LineFault::Failed);
    }
    Ok(brief(alloc, path.beside(alloc)?.as_str())?)
}
