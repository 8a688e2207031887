// The documents of a store that were read.
//
// A command reads a document of the store again in each step that uses it. If another process has replaced it since, the
// steps would go on with two different documents.

use crate::cause::Cause;
use crate::fault::HostFault;
use crate::files::look_at;
use crate::locks::is_within;
use cnb_world::{Memory, Path};
use std::alloc::Global;
use std::fs::Metadata;
use std::os::unix::fs::MetadataExt;
use std::rt::Files;

/// The documents that were read below a folder, with the file that each was.
#[derive(Drop)]
pub struct ReadDocuments {
    folders: Vec<Path>,
    documents: Vec<ReadDocument>,
}

#[derive(Drop)]
struct ReadDocument {
    path: Path,
    state: FileState,
}

// What tells a file from another that replaces it, which may get its number.
#[derive(Clone, Copy, PartialEq, Eq)]
struct FileState {
    dev: u64,
    ino: u64,
    len: u64,
    seconds: i64,
    nanoseconds: i64,
}

impl FileState {
    fn of(found: &Metadata) -> FileState {
        FileState {
            dev: found.dev(),
            ino: found.ino(),
            len: found.len(),
            seconds: found.mtime(),
            nanoseconds: found.mtime_nsec(),
        }
    }
}

impl ReadDocuments {
    pub fn none(alloc: Global) -> ReadDocuments {
        ReadDocuments {
            folders: Vec::new(alloc),
            documents: Vec::new(alloc),
        }
    }

    /// Has the files that are read below this folder stay the same until this process writes them.
    pub fn watch(&mut self, folder: Path) -> Result<(), Memory> {
        Ok(self.folders.push(folder)?)
    }

    /// Notes the file that a document was when it was read. It has to be the one that was read before.
    pub fn note(&mut self, alloc: Global, path: &Path, found: &Metadata) -> Result<(), HostFault> {
        if !self.is_watched(path.as_str()) {
            return Ok(());
        }
        let state = FileState::of(found);
        match self.state_at(path.as_str()) {
            Some(before) if before == state => Ok(()),
            Some(_) => Err(HostFault::Failed(Cause::Replaced)),
            None => self.push(path.copy(alloc)?, state),
        }
    }

    fn push(&mut self, path: Path, state: FileState) -> Result<(), HostFault> {
        Ok(self.documents.push(ReadDocument { path, state })?)
    }

    /// Refuses where another process has replaced or removed a document since it was read.
    pub fn check(&self, rt: &impl Files) -> Result<(), HostFault> {
        for document in self.documents.as_slice() {
            match look_at(rt, document.path.as_str())? {
                Some(found) if FileState::of(&found) == document.state => {}
                _ => return Err(HostFault::Failed(Cause::Replaced)),
            }
        }
        Ok(())
    }

    /// Forgets what is at a path and below it, since this process changes it.
    pub fn forget(&mut self, path: &str) {
        self.documents
            .retain(|document| !is_within(path, document.path.as_str()));
    }

    fn is_watched(&self, path: &str) -> bool {
        self.folders
            .iter()
            .any(|folder| is_within(folder.as_str(), path))
    }

    fn state_at(&self, path: &str) -> Option<FileState> {
        for document in self.documents.as_slice() {
            if document.path.as_str() == path {
                return Some(document.state);
            }
        }
        None
    }
}
