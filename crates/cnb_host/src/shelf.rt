// A cache in a folder of the system.
ghost use Rattle.std.specs.Prelude.{◌≡◌, ◌≤◌, IfOk, IfSome, None, length};
ghost use Rattle.std.specs.Result.{result_ok};
ghost use Rattle.cnb_world.specs.Calls.{CountsShelf};

use crate::beside::{NewFile, replace_file};
use crate::cause::Cause;
use crate::failure::Failure;
use crate::fault::HostFault;
use crate::files::{kind_at, make_folders};
use crate::opened::OpenedFile;
use cnb_world::{Bytes, Kind, LONGEST_DOCUMENT, Path, Shelf, ShelfFault};
use std::alloc::{AllocError, Global};
use std::marker::Model;
use std::os::unix::fs::FileExt;
use std::rt::Files;

/// The most bytes that are handed out of a tree's file: the spelling of a tree is no longer.
const MOST: u64 = 1073741824;

/// The most that is read of the rows: one byte more than a document may have.
const ROWS_MOST: u64 = LONGEST_DOCUMENT as u64 + 1;

/// A cache in a folder: the rows document in `rows.toml`, and the bytes under a digest in `trees`, in a file named by
/// the digest's 64 digits. Contracts see it as the count of the calls that failed. A `rows.toml` that is not there has
/// no bytes. A file is written beside its place and renamed. The folder is made by the first call that writes.
///
/// A tree's file that is read from its start stays open for the pieces that follow, up to the last one, and one that is
/// written until it is kept or a call on it fails. Then the unfinished file is removed.
#[derive(Drop)]
pub struct FolderShelf<R: Files + AllocGlobal + Drop> {
    rt: R,
    folder: Path,
    reading: Option<TreeFile<R>>,
    begun: Option<NewFile<R>>,
    faults: u64,
    failure: Option<(Task, Cause)>,
}

/// What a call was to do.
#[derive(Clone, Copy)]
enum Task {
    ReadRows,
    WriteRows,
    Look,
    Read,
    Begin,
    Write,
    Keep,
}

impl Task {
    fn text(self) -> &'static str {
        match self {
            Task::ReadRows => "read rows.toml",
            Task::WriteRows => "write rows.toml",
            Task::Look => "look for a tree",
            Task::Read => "read a tree",
            Task::Begin => "begin a tree",
            Task::Write => "write a tree",
            Task::Keep => "put a tree in place",
        }
    }
}

/// A tree's file that is read.
#[derive(Drop)]
struct TreeFile<R: Files> {
    digest: [u8; 32],
    file: OpenedFile<R>,
}

impl<R: Files> TreeFile<R> {
    fn is_under(&self, digest: &[u8; 32]) -> bool {
        self.digest.as_slice() == digest.as_slice()
    }
}

impl<R: Files + AllocGlobal + Drop> Model for FolderShelf<R> {
    ghost use Rattle.std.specs.Prelude.{ℕ};

    ghost Value = { ℕ };

    ghost view = { λ shelf. shelf.faults };
}

impl<R: Files + AllocGlobal + Drop> FolderShelf<R> {
    pub fn new(rt: R, folder: Path) -> FolderShelf<R>
        ensures { result ≡ 0 }
    {
        FolderShelf {
            rt,
            folder,
            reading: None,
            begun: None,
            faults: 0,
            failure: None,
        }
    }

    /// Why the call failed that failed last, with the cache's folder.
    pub fn failure(&self) -> Result<Option<String>, AllocError> {
        match self.failure {
            Some((task, cause)) => {
                let task = task.text();
                let text = Failure { task, cause }.text(self.rt.alloc())?;
                let folder = self.folder.as_str().escape_debug();
                Ok(Some(format!(in self.rt.alloc(); "{folder}: {}", text.as_str())?))
            }
            None => Ok(None),
        }
    }

    fn rows_path(&self) -> Result<String, AllocError> {
        rows_path(self.rt.alloc(), self.folder.as_str())
    }

    fn trees_path(&self) -> Result<String, AllocError> {
        format!(in self.rt.alloc(); "{}/trees", self.folder.as_str())
    }

    fn tree_path(&self, digest: &[u8; 32]) -> Result<String, AllocError> {
        let digits = hex::encode(self.rt.alloc(), *digest)?;
        format!(in self.rt.alloc(); "{}/trees/{}", self.folder.as_str(), digits.as_str())
    }

    fn write_rows(&self, bytes: &[u8]) -> Result<(), HostFault> {
        make_folders(&self.rt, self.folder.as_str())?;
        replace_file(&self.rt, self.rows_path()?, bytes)
    }

    fn has_tree(&self, digest: &[u8; 32]) -> Result<bool, HostFault> {
        let path = self.tree_path(digest)?;
        has_file(&self.rt, path.as_str())
    }

    // The file that is open for a tree, unless it is read anew.
    fn take_tree(&mut self, digest: &[u8; 32], at: u64) -> Result<Option<TreeFile<R>>, HostFault>
        ensures faults { self.new ≡ self.old }
    {
        match self.reading.take() {
            Some(tree) if at > 0 && tree.is_under(digest) => Ok(Some(tree)),
            _ => self.open_tree(digest),
        }
    }

    fn open_tree(&self, digest: &[u8; 32]) -> Result<Option<TreeFile<R>>, HostFault> {
        let path = self.tree_path(digest)?;
        let file = OpenedFile::open(&self.rt, path.as_str(), MOST)?;
        Ok(file.map(|file| TreeFile {
            digest: *digest,
            file,
        }))
    }

    fn read_tree(
        &mut self,
        digest: &[u8; 32],
        at: u64,
        most: u64,
    ) -> Result<Option<Bytes>, HostFault>
    where
        R::File: FileExt,
        ensures bound { IfOk result (λ found. IfSome found (λ bytes. length bytes ≤ most)) }
        ensures faults { self.new ≡ self.old }
    {
        let Some(tree) = self.take_tree(digest, at)? else {
            return Ok(None);
        };
        let bytes = tree.file.read(self.rt.alloc(), at, most)?;
        if bytes.as_slice().len() as u64 == most {
            self.reading = Some(tree);
        }
        Ok(Some(bytes))
    }

    fn begin_tree(&mut self, digest: &[u8; 32]) -> Result<(), HostFault>
        ensures faults { self.new ≡ self.old }
    {
        self.begun = None;
        self.make_trees()?;
        self.begun = Some(NewFile::begin(&self.rt, self.tree_path(digest)?)?);
        Ok(())
    }

    fn append_tree(&mut self, bytes: &[u8]) -> Result<(), HostFault>
        ensures faults { self.new ≡ self.old }
    {
        let mut begun = self.begun.take().ok_or(HostFault::Failed(Cause::NotBegun))?;
        let appended = begun.append(bytes);
        if appended.is_ok() {
            self.begun = Some(begun);
        } else {
            begun.discard(&self.rt);
        }
        appended
    }

    fn keep_tree(&mut self) -> Result<(), HostFault>
        ensures faults { self.new ≡ self.old }
    {
        self.reading = None;
        let begun = self.begun.take().ok_or(HostFault::Failed(Cause::NotBegun))?;
        begun.keep(&self.rt)
    }

    fn make_trees(&self) -> Result<(), HostFault> {
        let path = self.trees_path()?;
        make_folders(&self.rt, path.as_str())
    }

    fn counted<T>(&mut self, task: Task, outcome: Result<T, HostFault>) -> Result<T, ShelfFault>
        ensures value { result_ok result ≡ result_ok outcome }
        ensures faults { CountsShelf result self.old self.new }
    {
        match outcome {
            Ok(value) => Ok(value),
            Err(HostFault::Failed(cause)) => {
                self.failure = Some((task, cause));
                self.faults = self.faults.saturating_add(1);
                Err(ShelfFault::Failed)
            }
            Err(HostFault::Memory) => Err(ShelfFault::Memory),
        }
    }
}

impl<R: Files + AllocGlobal + Drop> Shelf for FolderShelf<R>
where
    R::File: FileExt,
{
    ghost held = { λ _. None };

    ghost rows = { λ _. None };

    ghost begun = { λ _. None };

    ghost faults = { λ count. count };

    fn rows(&mut self) -> Result<Bytes, ShelfFault> {
        let rows = read_rows_at(&self.rt, self.rt.alloc(), self.folder.as_str());
        self.counted(Task::ReadRows, rows)
    }

    fn set_rows(&mut self, bytes: &[u8]) -> Result<(), ShelfFault> {
        let written = self.write_rows(bytes);
        self.counted(Task::WriteRows, written)
    }

    fn has(&mut self, digest: &[u8; 32]) -> Result<bool, ShelfFault> {
        let found = self.has_tree(digest);
        self.counted(Task::Look, found)
    }

    fn read(&mut self, digest: &[u8; 32], at: u64, most: u64) -> Result<Option<Bytes>, ShelfFault> {
        let bytes = self.read_tree(digest, at, most);
        self.counted(Task::Read, bytes)
    }

    fn begin(&mut self, digest: &[u8; 32]) -> Result<(), ShelfFault> {
        let begun = self.begin_tree(digest);
        self.counted(Task::Begin, begun)
    }

    fn append(&mut self, bytes: &[u8]) -> Result<(), ShelfFault> {
        let appended = self.append_tree(bytes);
        self.counted(Task::Write, appended)
    }

    fn keep(&mut self) -> Result<(), ShelfFault> {
        let kept = self.keep_tree();
        self.counted(Task::Keep, kept)
    }
}

fn rows_path(alloc: Global, folder: &str) -> Result<String, AllocError> {
    format!(in alloc; "{folder}/rows.toml")
}

/// The rows document of the cache in a folder, at most one byte more of it than a document may have.
pub fn read_rows_at<R: Files>(rt: &R, alloc: Global, folder: &str) -> Result<Bytes, HostFault>
where
    R::File: FileExt,
    ensures bound { IfOk result (λ bytes. length bytes ≤ 1048577) }
{
    let path = rows_path(alloc, folder)?;
    match OpenedFile::open(rt, path.as_str(), ROWS_MOST)? {
        Some(file) => file.read(alloc, 0, ROWS_MOST),
        None => Ok(Bytes::from_vec(Vec::new(alloc))),
    }
}

fn has_file(rt: &impl Files, path: &str) -> Result<bool, HostFault> {
    match kind_at(rt, path)? {
        Kind::Absent => Ok(false),
        Kind::File { .. } => Ok(true),
        other => Err(HostFault::unwanted(&other)),
    }
}
