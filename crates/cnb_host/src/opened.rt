// A file that is read in pieces.
ghost use Rattle.std.specs.Prelude.{◌≤◌, IfOk, length};

use crate::fault::HostFault;
use crate::files::{look_at, open_to_read, read_at_most};
use cnb_world::Bytes;
use std::alloc::Global;
use std::os::unix::fs::FileExt;
use std::rt::Files;

/// A regular file that is open to be read, and how many bytes of it are handed out.
#[derive(Drop)]
pub struct OpenedFile<R: Files> {
    file: R::File,
    len: u64,
}

impl<R: Files> OpenedFile<R> {
    /// The file at a path, where anything is there. No more bytes of it are handed out than `limit`.
    pub fn open(rt: &R, path: &str, limit: u64) -> Result<Option<OpenedFile<R>>, HostFault> {
        let Some(found) = look_at(rt, path)? else {
            return Ok(None);
        };
        let (file, len) = open_to_read(rt, path, &found)?;
        Ok(Some(OpenedFile {
            file,
            len: len.min(limit),
        }))
    }
}

impl<R: Files> OpenedFile<R>
where
    R::File: FileExt,
{
    /// The bytes from `at` on, at most `most` of them.
    pub fn read(&self, alloc: Global, at: u64, most: u64) -> Result<Bytes, HostFault>
        ensures bound { IfOk result (λ bytes. length bytes ≤ most) }
    {
        read_at_most(alloc, &self.file, at, self.len.saturating_sub(at).min(most))
    }
}
