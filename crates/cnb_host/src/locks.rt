// Locks on the folders that one process at a time writes below.
//
// The lock is on the folder itself, opened for reading, so no file is made for it. The system releases it when the
// process ends, however it ends.

use crate::cause::Cause;
use crate::fault::HostFault;
use cnb_world::{Memory, Path};
use std::alloc::Global;
use std::fs::{File, Metadata, OpenFile, OpenOptions, TryLockError};
use std::io::ErrorKind;
use std::os::unix::fs::MetadataExt;
use std::rt::{Clock, Files};
use std::time::Duration;
use std::{fs, thread};

/// How often a lock that another process holds is asked for, and how many milliseconds lie between: five minutes.
const TURNS: u32 = 6000;

const TURN: u64 = 50;

/// An open folder that one process at a time can lock.
pub trait LockFolder {
    /// Takes the lock, unless another process holds it.
    fn take_lock(&self) -> Result<(), TryLockError>;
}

impl LockFolder for File {
    fn take_lock(&self) -> Result<(), TryLockError> {
        self.try_lock()
    }
}

/// What a call does at its path.
#[derive(Clone, Copy, PartialEq, Eq)]
pub enum Access {
    Read,
    Write,
}

/// The folders that one process at a time writes below.
#[derive(Drop)]
pub struct FolderLocks<R: Files> {
    folders: Vec<Guarded<R>>,
}

#[derive(Drop)]
struct Guarded<R: Files> {
    folder: Path,
    // Reading below this path takes the lock too.
    read: Option<Path>,
    lock: Lock<R>,
}

#[derive(Drop)]
enum Lock<R: Files> {
    // Not asked for so far.
    Free,
    // The open folder, and what the system says of it.
    Held(R::File, Metadata),
    // The file system has no locks, the folder may not be read, or another of the guarded folders is the same one.
    None,
}

impl<R: Files> FolderLocks<R> {
    pub fn none(alloc: Global) -> FolderLocks<R> {
        FolderLocks {
            folders: Vec::new(alloc),
        }
    }

    /// Has the first write below this folder take its lock, and the first read below `read`.
    pub fn guard(&mut self, folder: Path, read: Option<Path>) -> Result<(), Memory> {
        Ok(
            self.folders.push(Guarded {
                folder,
                read,
                lock: Lock::Free,
            })?,
        )
    }

    // How many of the folders, counted from the first, have to be locked for a call at this path.
    fn needed(&self, path: &str, access: Access) -> usize {
        for count in (1..=self.folders.len()).rev() {
            if self.folders[count - 1].is_needed(path, access) {
                return count;
            }
        }
        0
    }
}

impl<R: Files + Clock + Eprint> FolderLocks<R>
where
    R::File: LockFolder,
{
    /// Takes the lock of each guarded folder that the call has to have, and of those that were named before it, so that
    /// all processes take their locks in one order. Returns whether one was taken now. Where another process holds one,
    /// this waits for five minutes and says so on standard error.
    pub fn hold(&mut self, rt: &R, path: &str, access: Access) -> Result<bool, HostFault> {
        let mut taken = false;
        for at in 0..self.needed(path, access) {
            if at < self.folders.len() && matches!(self.folders[at].lock, Lock::Free) {
                let lock = self.lock_of(rt, self.folders[at].folder.as_str())?;
                taken = taken || matches!(lock, Lock::Held(..));
                self.folders[at].lock = lock;
            }
        }
        Ok(taken)
    }

    // Waits for the lock of a folder. Where no folder is there, the write itself will fail.
    fn lock_of(&self, rt: &R, folder: &str) -> Result<Lock<R>, HostFault> {
        for turn in 0..TURNS {
            match fs::metadata(rt, folder) {
                Ok(found) if !found.is_dir() => return Ok(Lock::Free),
                Ok(found) if self.is_held(&found) => return Ok(Lock::None),
                Ok(_) => {}
                Err(_) => return Ok(Lock::Free),
            }
            if let Some(lock) = try_lock(rt, folder)? {
                return Ok(lock);
            }
            if turn == 0 {
                // Where standard error takes nothing, there is nobody to be informed.
                let _ = eprintln!(rt;
                    "waiting for another process that writes below {}",
                    folder.escape_debug()
                );
            }
            thread::sleep(rt, Duration::from_millis(TURN));
        }
        Err(HostFault::Failed(Cause::Locked))
    }

    // Whether the lock of this very folder is held already, by whatever path it was reached.
    fn is_held(&self, found: &Metadata) -> bool {
        self.folders.iter().any(|guarded| match &guarded.lock {
            Lock::Held(_, held) => is_same(held, found),
            Lock::Free | Lock::None => false,
        })
    }
}

impl<R: Files> Guarded<R> {
    // Whether a call at the path has to have the folder's lock, which was not asked for so far.
    fn is_needed(&self, path: &str, access: Access) -> bool {
        match &self.lock {
            Lock::Free => self.covers(path, access),
            Lock::Held(..) | Lock::None => false,
        }
    }

    fn covers(&self, path: &str, access: Access) -> bool {
        match access {
            Access::Write => is_within(self.folder.as_str(), path),
            Access::Read => match &self.read {
                Some(read) => is_within(read.as_str(), path),
                None => false,
            },
        }
    }
}

/// Whether a path is a folder's own or below it.
pub fn is_within(folder: &str, path: &str) -> bool {
    match path.strip_prefix(folder) {
        Some(rest) => rest.is_empty() || rest.starts_with('/') || folder == "/",
        None => false,
    }
}

// The lock of a folder, unless another process holds it.
fn try_lock<R: Files>(rt: &R, folder: &str) -> Result<Option<Lock<R>>, HostFault>
where
    R::File: LockFolder,
{
    let mut options = OpenOptions::new();
    options.read(true);
    let file = match options.open(rt, folder) {
        Ok(file) => file,
        Err(error) => match error.kind() {
            ErrorKind::PermissionDenied => return Ok(Some(Lock::None)),
            _ => return Err(HostFault::from(error)),
        },
    };
    match file.take_lock() {
        Ok(()) => held(rt, file, folder),
        Err(TryLockError::WouldBlock) => Ok(None),
        Err(TryLockError::Error(_)) => Ok(Some(Lock::None)),
    }
}

// The lock that was taken, where the folder that was opened is still the one at its path.
fn held<R: Files>(rt: &R, file: R::File, folder: &str) -> Result<Option<Lock<R>>, HostFault> {
    let opened = file.metadata()?;
    if is_same(&opened, &fs::metadata(rt, folder)?) {
        Ok(Some(Lock::Held(file, opened)))
    } else {
        Ok(None)
    }
}

/// Whether the system says of both that they are one file.
pub fn is_same(one: &Metadata, other: &Metadata) -> bool {
    one.dev() == other.dev() && one.ino() == other.ino()
}
