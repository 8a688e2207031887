// A file that is written beside its place.

use crate::cause::Cause;
use crate::fault::HostFault;
use crate::files::{create_file, rename_open};
use std::fs;
use std::io::Write;
use std::rt::Files;

/// A file that is written beside its place, and open until it is renamed, so that at no time a part of its bytes is
/// there.
#[derive(Drop)]
pub struct NewFile<R: Files> {
    path: String,
    unfinished: String,
    file: R::File,
}

impl<R: Files + AllocGlobal> NewFile<R> {
    /// Begins the file at a path, in place of an unfinished one.
    pub fn begin(rt: &R, path: String) -> Result<NewFile<R>, HostFault> {
        let unfinished = format!(in rt.alloc(); "{path}.new")?;
        let file = create_file(rt, unfinished.as_str(), false)?;
        Ok(NewFile {
            path,
            unfinished,
            file,
        })
    }
}

impl<R: Files> NewFile<R> {
    /// Adds bytes at the end.
    pub fn append(&mut self, bytes: &[u8]) -> Result<(), HostFault> {
        Ok(self.file.write_all(bytes)?)
    }

    /// Puts the file at its place, in place of a regular file that is there, once what it holds has reached the disk.
    /// Where that fails, the file is removed, unless another process has put one of its own there.
    pub fn keep(self, rt: &R) -> Result<(), HostFault> {
        let kept = rename_open(rt, &self.file, self.unfinished.as_str(), self.path.as_str());
        match kept {
            Ok(()) | Err(HostFault::Failed(Cause::Replaced)) => {}
            Err(_) => self.discard(rt),
        }
        kept
    }

    /// Removes the unfinished file. A file that can't be removed is left, and begun anew by the next call that puts it.
    pub fn discard(&self, rt: &R) {
        let _ = fs::remove_file(rt, self.unfinished.as_str());
    }
}

/// Puts a file with these bytes at a path, in place of a regular file that is there.
pub fn replace_file<R: Files + AllocGlobal>(
    rt: &R,
    path: String,
    bytes: &[u8],
) -> Result<(), HostFault> {
    let mut file = NewFile::begin(rt, path)?;
    if let Err(fault) = file.append(bytes) {
        file.discard(rt);
        return Err(fault);
    }
    file.keep(rt)
}
