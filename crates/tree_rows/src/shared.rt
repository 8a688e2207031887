// A world in memory to which something else writes meanwhile, and whose calls take no long pieces.
ghost use Rattle.std.specs.Prelude.{◌≡◌, ◌≤◌, IfOk, Ok, length};
ghost use Rattle.cnb_world.specs.Calls.{CountsFailed, LastFailed};

use crate::reading::{item_of, text_or_none};
use crate::worlds::world_of;
use cnb_world::{
    Bytes, ChildFault, ChildJob, End, FileFault, Item, Kind, List, MemWorld, Path, Text, World,
};
use row_files::{Answer, Row};
use std::alloc::Global;

/// A file that something else writes before the read of a number.
#[derive(Drop)]
struct Change {
    number: u64,
    path: Path,
    bytes: Bytes,
}

/// A world in memory that others share. Contracts don't see its files. A read or an append of more bytes than `most`
/// fails.
#[derive(Drop)]
pub struct Shared {
    alloc: Global,
    world: MemWorld,
    change: Option<Change>,
    most: u64,
    reads: u64,
    faults: u64,
    failed_at: Option<Path>,
}

fn change_of(answer: &mut Answer, text: &str) -> Option<Change> {
    let (number, line) = text.split_once(' ')?;
    let (path, item) = item_of(answer, line);
    let Item::File { exec: _, bytes } = item else {
        answer.wrong("no file:", line);
        return None;
    };
    Some(Change {
        number: answer.number(number),
        path: answer.path(path)?,
        bytes,
    })
}

fn write(world: &mut MemWorld, change: &Change) -> Result<(), FileFault> {
    world.create(&change.path, false)?;
    world.append(&change.path, change.bytes.as_slice())
}

impl Shared {
    /// The world of a row, with what is written `meanwhile` and the `most` bytes of a call.
    pub(crate) fn of(answer: &mut Answer, row: &Row) -> Option<Shared> {
        let most = match text_or_none(row, "most") {
            "" => u64::MAX,
            most => answer.number(most),
        };
        Some(Shared {
            alloc: answer.alloc,
            world: world_of(answer, row)?,
            change: change_of(answer, text_or_none(row, "meanwhile")),
            most,
            reads: 0,
            faults: 0,
            failed_at: None,
        })
    }

    fn noted<T: Drop>(&mut self, path: &Path, answer: Result<T, FileFault>) -> Result<T, FileFault>
        ensures same { IfOk result (λ value. answer ≡ Ok value) }
        ensures files { CountsFailed result self.old.faults self.new.faults }
        ensures at { LastFailed path.now result self.old.failed_at self.new.failed_at }
    {
        match answer {
            Ok(value) => Ok(value),
            Err(FileFault::Memory) => Err(FileFault::Memory),
            Err(FileFault::Failed) => {
                self.failed_at = Some(path.copy(self.alloc)?);
                self.faults = self.faults.saturating_add(1);
                Err(FileFault::Failed)
            }
        }
    }

    fn read_now(&mut self, path: &Path, at: u64, max: u64) -> Result<Bytes, FileFault>
        ensures bound { IfOk result (λ bytes. length bytes ≤ max) }
        ensures faults { self.new.faults ≡ self.old.faults }
        ensures failed_at { self.new.failed_at ≡ self.old.failed_at }
    {
        if max > self.most {
            return Err(FileFault::Failed);
        }
        match &self.change {
            Some(change) if change.number == self.reads => write(&mut self.world, change)?,
            _ => {}
        }
        self.reads = self.reads.saturating_add(1);
        self.world.read(path, at, max)
    }

    fn append_now(&mut self, path: &Path, bytes: &[u8]) -> Result<(), FileFault>
        ensures faults { self.new.faults ≡ self.old.faults }
        ensures failed_at { self.new.failed_at ≡ self.old.failed_at }
    {
        if bytes.len() as u64 > self.most {
            return Err(FileFault::Failed);
        }
        self.world.append(path, bytes)
    }
}

impl World for Shared {
    ghost use Rattle.std.specs.Prelude.{None, []};

    ghost tree = { λ _. None };

    ghost file_faults = { λ w. w.faults };

    ghost failed_at = { λ w. w.failed_at };

    ghost child_faults = { λ _. 0 };

    ghost misused = { λ _. 0 };

    ghost runs = { λ _. [] };

    ghost standing = { λ _. tt };

    fn kind(&mut self, path: &Path) -> Result<Kind, FileFault> {
        let answer = self.world.kind(path);
        self.noted(path, answer)
    }

    fn list(&mut self, path: &Path) -> Result<List<Text>, FileFault> {
        let answer = self.world.list(path);
        self.noted(path, answer)
    }

    fn read(&mut self, path: &Path, at: u64, max: u64) -> Result<Bytes, FileFault> {
        let answer = self.read_now(path, at, max);
        self.noted(path, answer)
    }

    fn create(&mut self, path: &Path, exec: bool) -> Result<(), FileFault> {
        let answer = self.world.create(path, exec);
        self.noted(path, answer)
    }

    fn append(&mut self, path: &Path, bytes: &[u8]) -> Result<(), FileFault> {
        let answer = self.append_now(path, bytes);
        self.noted(path, answer)
    }

    fn make_folder(&mut self, path: &Path) -> Result<(), FileFault> {
        let answer = self.world.make_folder(path);
        self.noted(path, answer)
    }

    fn rename(&mut self, old: &Path, new: &Path) -> Result<(), FileFault> {
        let answer = self.world.rename(old, new);
        self.noted(new, answer)
    }

    fn make_link(&mut self, path: &Path, target: &str) -> Result<(), FileFault> {
        let answer = self.world.make_link(path, target);
        self.noted(path, answer)
    }

    fn read_link(&mut self, path: &Path) -> Result<Text, FileFault> {
        let answer = self.world.read_link(path);
        self.noted(path, answer)
    }

    fn remove(&mut self, path: &Path) -> Result<(), FileFault> {
        let answer = self.world.remove(path);
        self.noted(path, answer)
    }

    fn run(&mut self, _job: &ChildJob) -> Result<End, ChildFault> {
        Err(ChildFault::Memory)
    }
}
