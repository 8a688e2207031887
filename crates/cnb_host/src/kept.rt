// The file that was made last, kept open for what is added to it.
//
// A file is made, added to and renamed by calls that follow one another. While it is open, these calls need not look
// for it again. A file that may be run is not kept: the system starts no program that is open for writing.

use crate::fault::HostFault;
use crate::files::{append_bytes, create_file, rename_file, rename_open};
use cnb_world::Path;
use std::alloc::Global;
use std::io::Write;
use std::rt::Files;

/// The file that was made last, where it is still open.
#[derive(Drop)]
pub struct KeptFile<R: Files> {
    made: Option<Made<R>>,
}

#[derive(Drop)]
struct Made<R: Files> {
    path: Path,
    file: R::File,
}

impl<R: Files> KeptFile<R> {
    pub fn none() -> KeptFile<R> {
        KeptFile { made: None }
    }

    pub fn close(&mut self) {
        self.made = None;
    }

    /// Makes an empty file, in place of a regular file that stands there.
    pub fn create(
        &mut self,
        rt: &R,
        alloc: Global,
        path: &Path,
        exec: bool,
    ) -> Result<(), HostFault> {
        self.close();
        let kept = path.copy(alloc)?;
        let file = create_file(rt, path.as_str(), exec)?;
        if !exec {
            self.made = Some(Made { path: kept, file });
        }
        Ok(())
    }

    /// Adds bytes to the regular file at a path.
    pub fn append(&mut self, rt: &R, path: &Path, bytes: &[u8]) -> Result<(), HostFault> {
        match &mut self.made {
            Some(made) if made.path.as_str() == path.as_str() => Ok(made.file.write_all(bytes)?),
            _ => append_bytes(rt, path.as_str(), bytes),
        }
    }

    /// Gives a regular file a new name, in place of a regular file that has it, once what it holds has reached the
    /// disk.
    pub fn rename(&mut self, rt: &R, old: &Path, new: &Path) -> Result<(), HostFault> {
        let made = self.made.take();
        rename_made(rt, &made, old.as_str(), new.as_str())
    }
}

fn rename_made<R: Files>(
    rt: &R,
    made: &Option<Made<R>>,
    old: &str,
    new: &str,
) -> Result<(), HostFault> {
    match made {
        Some(made) if made.path.as_str() == old => rename_open(rt, &made.file, old, new),
        _ => rename_file(rt, old, new),
    }
}
