// The regular file that was looked at last.
//
// A file is looked at and then read, by calls that follow one another. What the system said of it is kept, so that
// reading it need not look again: the file is opened, and compared with what was looked at.
ghost use Rattle.std.specs.Prelude.{◌≤◌, IfOk, length};

use crate::cause::Cause;
use crate::fault::HostFault;
use crate::files::{kind_of, link_kind, look_at, read_found, read_part};
use cnb_world::{Bytes, Kind, Path};
use std::alloc::Global;
use std::fs::Metadata;
use std::os::unix::fs::FileExt;
use std::rt::Files;

/// How often a file is looked at again that another process replaces just then.
const TRIES: u32 = 100;

/// The file that was looked at last, where one stood at the path and nothing was changed since.
#[derive(Drop)]
pub struct LookedAt {
    file: Option<Looked>,
}

#[derive(Drop)]
struct Looked {
    path: Path,
    found: Metadata,
}

impl LookedAt {
    pub fn none() -> LookedAt {
        LookedAt { file: None }
    }

    pub fn forget(&mut self) {
        self.file = None;
    }

    /// What the system says of the file at a path, if it is the one that was looked at last.
    pub fn found_at(&self, path: &Path) -> Option<&Metadata> {
        match &self.file {
            Some(looked) if looked.path.as_str() == path.as_str() => Some(&looked.found),
            _ => None,
        }
    }

    /// What stands at a path. A link whose target is not UTF-8 is odd.
    pub fn kind<R: Files + AllocGlobal>(&mut self, rt: &R, path: &Path) -> Result<Kind, HostFault> {
        self.forget();
        let Some(found) = look_at(rt, path.as_str())? else {
            return Ok(Kind::Absent);
        };
        if found.is_symlink() {
            return link_kind(rt, path.as_str());
        }
        let kind = kind_of(&found);
        if found.is_file() {
            let path = path.copy(rt.alloc())?;
            self.file = Some(Looked { path, found });
        }
        Ok(kind)
    }

    /// The bytes of the regular file at a path from `at` on, at most `max` of them.
    pub fn read<R: Files>(
        &mut self,
        rt: &R,
        alloc: Global,
        path: &Path,
        at: u64,
        max: u64,
    ) -> Result<Bytes, HostFault>
    where
        R::File: FileExt,
        ensures bound { IfOk result (λ bytes. length bytes ≤ max) }
    {
        let Some(found) = self.found_at(path) else {
            return read_part(rt, alloc, path.as_str(), at, max);
        };
        let bytes = read_found(rt, alloc, path.as_str(), found, at, max);
        if at > 0 || !is_replaced(&bytes) {
            return bytes;
        }
        self.read_replaced(rt, alloc, path, max)
    }

    // What is read of a file that another process has put in place of the one that was looked at, of which nothing was
    // handed out.
    fn read_replaced<R: Files>(
        &mut self,
        rt: &R,
        alloc: Global,
        path: &Path,
        max: u64,
    ) -> Result<Bytes, HostFault>
    where
        R::File: FileExt,
        ensures bound { IfOk result (λ bytes. length bytes ≤ max) }
    {
        for _ in 0..TRIES {
            let bytes = self.read_new(rt, alloc, path, max);
            if !is_replaced(&bytes) {
                return bytes;
            }
        }
        Err(HostFault::Failed(Cause::Replaced))
    }

    // Looks at the file again, and reads it. One with more bytes than are asked for would be cut.
    fn read_new<R: Files>(
        &mut self,
        rt: &R,
        alloc: Global,
        path: &Path,
        max: u64,
    ) -> Result<Bytes, HostFault>
    where
        R::File: FileExt,
        ensures bound { IfOk result (λ bytes. length bytes ≤ max) }
    {
        self.forget();
        let Some(found) = look_at(rt, path.as_str())? else {
            return Err(HostFault::Failed(Cause::Absent));
        };
        if found.len() > max {
            return Err(HostFault::Failed(Cause::Replaced));
        }
        let path = path.copy(alloc)?;
        let bytes = read_found(rt, alloc, path.as_str(), &found, 0, max);
        self.file = Some(Looked { path, found });
        bytes
    }
}

fn is_replaced(read: &Result<Bytes, HostFault>) -> bool {
    matches!(read, Err(HostFault::Failed(Cause::Replaced)))
}
