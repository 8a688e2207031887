// Files and children of the system as a world.
ghost use Rattle.std.specs.Prelude.{◌≡◌, ◌≤◌, ◌++◌, ◌∷◌, [], None, false, IfOk, OnErr, OnOk, length};
ghost use Rattle.std.specs.Result.{result_ok};
ghost use Rattle.cnb_world.specs.Calls.{AreNames, CountsChild, CountsFailed, LastFailed};
ghost use Rattle.cnb_host.specs.System.{runs_of};

use crate::command::{child_command, child_command_at};
use crate::documents::ReadDocuments;
use crate::failure::Failure;
use crate::fault::HostFault;
use crate::files::{link_target, make_folders, make_link_at};
use crate::kept::KeptFile;
use crate::locks::{Access, FolderLocks, LockFolder};
use crate::looked::LookedAt;
use crate::lookup::other_program;
use crate::names::names_in;
use crate::program::why_unstarted;
use crate::remove::remove_at;
use crate::rows::{once_kept, with_end};
use crate::side::run_side;
use cnb_world::{
    Bytes, ChildFault, ChildJob, End, FileFault, Kind, List, Memory, Path, Text, World,
};
use std::alloc::{AllocError, Global};
use std::marker::Model;
use std::os::unix::fs::FileExt;
use std::process::{Command, Processes};
use std::rt::{Clock, Files};

/// The files and programs of the system, which contracts see as the list of the children that ended and the counts of
/// the calls that failed. What the files hold isn't told. A call that does not fit what stands at its path, as a read
/// of a folder, fails here as it does in memory.
#[derive(Drop)]
pub struct HostWorld<R: Files + Processes + AllocGlobal + Clone + Drop> {
    rt: R,
    kept: KeptFile<R>,
    locks: FolderLocks<R>,
    documents: ReadDocuments,
    looked: LookedAt,
    runs: Vec<Row>,
    file_faults: u64,
    failed_at: Option<Path>,
    file_failure: Option<Failure>,
    child_faults: u64,
    child_failure: Option<(Text, Failure)>,
}

// A child that ended.
#[derive(Drop)]
struct Row {
    job: ChildJob,
    end: End,
}

impl Model for Row {
    ghost use Rattle.cnb_host.specs.System.{Ended};

    ghost Value = { Ended };

    ghost view = { λ row. record { job = row.job; end = row.end } };
}

impl<R: Files + Processes + AllocGlobal + Clone + Drop> Model for HostWorld<R> {
    ghost use Rattle.cnb_host.specs.System.{System};

    ghost Value = { System };

    ghost view = { λ world. record { runs = world.runs.items; file_faults = world.file_faults; failed_at = world.failed_at; child_faults = world.child_faults } };
}

impl<R: Files + Processes + AllocGlobal + Clone + Drop> HostWorld<R> {
    pub fn new(rt: R) -> HostWorld<R>
        ensures runs { result.runs ≡ [] }
        ensures files { result.file_faults ≡ 0 }
        ensures at { result.failed_at ≡ None }
        ensures children { result.child_faults ≡ 0 }
    {
        let runs = Vec::new(rt.alloc());
        let locks = FolderLocks::none(rt.alloc());
        let documents = ReadDocuments::none(rt.alloc());
        HostWorld {
            rt,
            kept: KeptFile::none(),
            locks,
            documents,
            looked: LookedAt::none(),
            runs,
            file_faults: 0,
            failed_at: None,
            file_failure: None,
            child_faults: 0,
            child_failure: None,
        }
    }

    /// Has the first write below this folder, and the first read below `read`, wait until no other process that guards
    /// the folder is at work below it, for five minutes at most. From then on this process is the one that writes there,
    /// until it ends.
    pub fn guard(&mut self, folder: Path, read: Option<Path>) -> Result<(), Memory>
        ensures { self.new ≡ self.old }
    {
        self.locks.guard(folder, read)
    }

    /// Has a file below this folder that was read before, and that another process has replaced since, count as a call
    /// that failed.
    pub fn watch(&mut self, folder: Path) -> Result<(), Memory>
        ensures { self.new ≡ self.old }
    {
        self.documents.watch(folder)
    }

    /// Why the call on files failed that failed last, with its path.
    pub fn file_failure(&self) -> Result<Option<String>, AllocError> {
        match (&self.failed_at, &self.file_failure) {
            (Some(path), Some(failure)) => Ok(Some(self.failure_at(path.as_str(), failure)?)),
            _ => Ok(None),
        }
    }

    /// Why the child failed to run that failed last, with its program.
    pub fn child_failure(&self) -> Result<Option<String>, AllocError> {
        match &self.child_failure {
            Some((program, failure)) => Ok(Some(self.failure_at(program.as_str(), failure)?)),
            None => Ok(None),
        }
    }

    fn failure_at(&self, path: &str, failure: &Failure) -> Result<String, AllocError> {
        let text = failure.text(self.rt.alloc())?;
        format!(in self.rt.alloc(); "{}: {}", path.escape_debug(), text.as_str())
    }

    fn counted<T>(
        &mut self,
        path: &Path,
        task: &'static str,
        outcome: Result<T, HostFault>,
    ) -> Result<T, FileFault>
        ensures value { result_ok result ≡ result_ok outcome }
        ensures files { CountsFailed result self.old.file_faults self.new.file_faults }
        ensures at { LastFailed path.now result self.old.failed_at self.new.failed_at }
        ensures children { self.new.child_faults ≡ self.old.child_faults }
        ensures runs { self.new.runs ≡ self.old.runs }
    {
        match outcome {
            Ok(value) => Ok(value),
            Err(HostFault::Failed(cause)) => {
                self.failed_at = Some(path.copy(self.rt.alloc())?);
                self.file_failure = Some(Failure { task, cause });
                self.file_faults = self.file_faults.saturating_add(1);
                Err(FileFault::Failed)
            }
            Err(HostFault::Memory) => Err(FileFault::Memory),
        }
    }

    fn counted_end(
        &mut self,
        job: &ChildJob,
        outcome: Result<End, HostFault>,
    ) -> Result<End, ChildFault>
        ensures value { result_ok result ≡ result_ok outcome }
        ensures children { CountsChild result self.old.child_faults self.new.child_faults }
        ensures files { self.new.file_faults ≡ self.old.file_faults }
        ensures at { self.new.failed_at ≡ self.old.failed_at }
        ensures runs { self.new.runs ≡ self.old.runs }
    {
        match outcome {
            Ok(end) => Ok(end),
            Err(HostFault::Failed(cause)) => {
                if let Ok(program) = job.program.copy(self.rt.alloc()) {
                    self.child_failure = Some((program, Failure::to_run(cause)));
                }
                self.child_faults = self.child_faults.saturating_add(1);
                Err(ChildFault::Failed)
            }
            Err(HostFault::Memory) => Err(ChildFault::Memory),
        }
    }

    // Takes the memory for the child's row before the child starts.
    fn run_job(&mut self, job: &ChildJob) -> Result<End, HostFault>
    where
        R::File: FileExt,
        ensures ok { IfOk result (λ end. self.new.runs ≡ self.old.runs ++ record { job = job.now; end = end } ∷ []) }
        ensures bound { IfOk result (λ end. length end.side ≤ 1048577) }
        ensures side { job.now.side ≡ false → IfOk result (λ end. end.side ≡ []) }
        ensures err { OnErr result (self.new.runs ≡ self.old.runs) }
        ensures files { self.new.file_faults ≡ self.old.file_faults }
        ensures at { self.new.failed_at ≡ self.old.failed_at }
        ensures children { self.new.child_faults ≡ self.old.child_faults }
    {
        self.runs.reserve(1)?;
        let kept = job.copy(self.rt.alloc())?;
        let end = run_child(&self.rt, job);
        let (kept, end) = with_end(kept, end)?;
        let done = self.keep(kept, &end);
        once_kept(done, end)
    }

    // Adds the row of a child that ended.
    fn keep(&mut self, job: ChildJob, end: &End) -> Result<(), HostFault>
        ensures ok { OnOk result (self.new.runs ≡ self.old.runs ++ record { job = job; end = end.now } ∷ []) }
        ensures err { OnErr result (self.new.runs ≡ self.old.runs) }
        ensures files { self.new.file_faults ≡ self.old.file_faults }
        ensures at { self.new.failed_at ≡ self.old.failed_at }
        ensures children { self.new.child_faults ≡ self.old.child_faults }
    {
        let row = row_of(self.rt.alloc(), job, end)?;
        Ok(self.runs.push(row)?)
    }
}

impl<R: Files + Processes + AllocGlobal + Clock + Eprint + Clone + Drop> World for HostWorld<R>
where
    R::File: FileExt + LockFolder,
{
    ghost tree = { λ _. None };

    ghost file_faults = { λ world. world.file_faults };

    ghost failed_at = { λ world. world.failed_at };

    ghost child_faults = { λ world. world.child_faults };

    ghost misused = { λ _. 0 };

    ghost runs = { λ world. runs_of world.runs };

    ghost standing = { λ _. tt };

    fn kind(&mut self, path: &Path) -> Result<Kind, FileFault> {
        let kind = self.kind_at(path);
        self.counted(path, "look at it", kind)
    }

    fn list(&mut self, path: &Path) -> Result<List<Text>, FileFault> {
        let names = self.names_at(path);
        self.counted(path, "list the folder", names)
    }

    fn read(&mut self, path: &Path, at: u64, max: u64) -> Result<Bytes, FileFault> {
        let bytes = self.bytes_at(path, at, max);
        self.counted(path, "read the file", bytes)
    }

    fn create(&mut self, path: &Path, exec: bool) -> Result<(), FileFault> {
        let created = self.make_file(path, exec);
        self.counted(path, "make the file", created)
    }

    fn append(&mut self, path: &Path, bytes: &[u8]) -> Result<(), FileFault> {
        let appended = self.add_bytes(path, bytes);
        self.counted(path, "write to the file", appended)
    }

    fn make_folder(&mut self, path: &Path) -> Result<(), FileFault> {
        let made = self.make_folder_at(path);
        self.counted(path, "make the folder", made)
    }

    fn rename(&mut self, old: &Path, new: &Path) -> Result<(), FileFault> {
        let renamed = self.move_file(old, new);
        self.counted(new, "put the file in place", renamed)
    }

    fn make_link(&mut self, path: &Path, target: &str) -> Result<(), FileFault> {
        let made = self.make_link_to(path, target);
        self.counted(path, "make the link", made)
    }

    fn read_link(&mut self, path: &Path) -> Result<Text, FileFault> {
        let target = self.target_at(path);
        self.counted(path, "read the link", target)
    }

    fn remove(&mut self, path: &Path) -> Result<(), FileFault> {
        let removed = self.remove_all(path);
        self.counted(path, "remove it", removed)
    }

    fn run(&mut self, job: &ChildJob) -> Result<End, ChildFault> {
        self.looked.forget();
        self.kept.close();
        let outcome = self.run_job(job);
        self.counted_end(job, outcome)
    }
}

// What a call does before it is counted. Each takes the locks first that a call at its path has to have; a guarded folder
// is made before it can be locked.
impl<R: Files + Processes + AllocGlobal + Clock + Eprint + Clone + Drop> HostWorld<R>
where
    R::File: FileExt + LockFolder,
{
    // Waiting for a lock may take minutes, in which the process that holds it may replace what this one has read.
    fn lock(&mut self, path: &Path, access: Access) -> Result<(), HostFault>
        ensures { self.new ≡ self.old }
    {
        if self.locks.hold(&self.rt, path.as_str(), access)? {
            self.documents.check(&self.rt)?;
        }
        Ok(())
    }

    fn lock_to_write(&mut self, path: &Path) -> Result<(), HostFault>
        ensures { self.new ≡ self.old }
    {
        self.looked.forget();
        self.lock(path, Access::Write)?;
        self.documents.forget(path.as_str());
        Ok(())
    }

    fn kind_at(&mut self, path: &Path) -> Result<Kind, HostFault>
        ensures { self.new ≡ self.old }
    {
        self.lock(path, Access::Read)?;
        self.looked.kind(&self.rt, path)
    }

    fn names_at(&mut self, path: &Path) -> Result<List<Text>, HostFault>
        ensures names { IfOk result AreNames }
        ensures same { self.new ≡ self.old }
    {
        self.lock(path, Access::Read)?;
        names_in(&self.rt, path.as_str())
    }

    fn bytes_at(&mut self, path: &Path, at: u64, max: u64) -> Result<Bytes, HostFault>
        ensures bound { IfOk result (λ bytes. length bytes ≤ max) }
        ensures same { self.new ≡ self.old }
    {
        self.lock(path, Access::Read)?;
        let bytes = self.looked.read(&self.rt, self.rt.alloc(), path, at, max)?;
        if let Some(found) = self.looked.found_at(path) {
            self.documents.note(self.rt.alloc(), path, found)?;
        }
        Ok(bytes)
    }

    fn make_file(&mut self, path: &Path, exec: bool) -> Result<(), HostFault>
        ensures { self.new ≡ self.old }
    {
        self.lock_to_write(path)?;
        self.kept.create(&self.rt, self.rt.alloc(), path, exec)
    }

    fn add_bytes(&mut self, path: &Path, bytes: &[u8]) -> Result<(), HostFault>
        ensures { self.new ≡ self.old }
    {
        self.lock(path, Access::Write)?;
        self.kept.append(&self.rt, path, bytes)
    }

    fn make_folder_at(&mut self, path: &Path) -> Result<(), HostFault>
        ensures { self.new ≡ self.old }
    {
        make_folders(&self.rt, path.as_str())?;
        self.lock(path, Access::Write)
    }

    fn move_file(&mut self, old: &Path, new: &Path) -> Result<(), HostFault>
        ensures { self.new ≡ self.old }
    {
        self.lock_to_write(old)?;
        self.lock_to_write(new)?;
        self.kept.rename(&self.rt, old, new)
    }

    fn make_link_to(&mut self, path: &Path, target: &str) -> Result<(), HostFault>
        ensures { self.new ≡ self.old }
    {
        self.lock_to_write(path)?;
        make_link_at(&self.rt, path.as_str(), target)
    }

    fn target_at(&mut self, path: &Path) -> Result<Text, HostFault>
        ensures { self.new ≡ self.old }
    {
        self.lock(path, Access::Read)?;
        link_target(&self.rt, path.as_str())
    }

    fn remove_all(&mut self, path: &Path) -> Result<(), HostFault>
        ensures { self.new ≡ self.old }
    {
        self.lock_to_write(path)?;
        self.kept.close();
        remove_at(&self.rt, path.as_str())
    }
}

// Runs the child and waits for it. A child that a signal ended has no code.
fn run_child<R: Files + Processes + AllocGlobal>(rt: &R, job: &ChildJob) -> Result<End, HostFault>
where
    R::File: FileExt,
    ensures bound { IfOk result (λ end. length end.side ≤ 1048577) }
    ensures side { job.now.side ≡ false → IfOk result (λ end. end.side ≡ []) }
{
    if job.side {
        match run_side(rt, job) {
            Ok(end) => Ok(end),
            Err(fault) => Err(why_unstarted(rt, job.program.as_str(), job.dir.as_str(), fault)),
        }
    } else {
        let code = run_alone(rt, job)?;
        let side = Bytes::from_vec(Vec::new(rt.alloc()));
        Ok(End { code, side })
    }
}

// A program that would be this one is run from where else it is.
fn run_alone<R: Files + Processes + AllocGlobal>(
    rt: &R,
    job: &ChildJob,
) -> Result<Option<i32>, HostFault>
where
    R::File: FileExt,
{
    let mut command = match other_program(rt, job)? {
        Some(path) => child_command_at(rt.alloc(), job, path.as_str())?,
        None => child_command(rt.alloc(), job)?,
    };
    match code_of(rt, &mut command) {
        Ok(code) => Ok(code),
        Err(fault) => Err(why_unstarted(rt, job.program.as_str(), job.dir.as_str(), fault)),
    }
}

fn code_of<R: Processes>(rt: &R, command: &mut Command) -> Result<Option<i32>, HostFault> {
    Ok(command.status(rt)?.code())
}

fn row_of(alloc: Global, job: ChildJob, end: &End) -> Result<Row, Memory>
    ensures { IfOk result (λ row. row ≡ record { job = job; end = end.now }) }
{
    let end = end.copy(alloc)?;
    Ok(Row { job, end })
}
