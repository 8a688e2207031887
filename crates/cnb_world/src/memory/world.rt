// A world in memory, with the calls that fail.
ghost use Rattle.std.specs.Prelude.{◌≡◌, ◌<◌, None, Some, [], IfOk, IfSome, length, map};
ghost use Rattle.std.specs.FinMap.{empty};
ghost use Rattle.cnb_world.specs.Tree.{IsTree, can_create, can_make_link, can_rename};
ghost use Rattle.cnb_world.specs.Calls.{CountsFailed, CountsMisuse, LastFailed, Rose};
ghost use Rattle.cnb_world.specs.Memory.{tree_of, all_placed, end_of_run, row_of, runs_of};

use crate::child::{ChildFault, ChildJob, End};
use crate::memory::changes::Changes;
use crate::memory::numbers::{Numbers, raised};
use crate::memory::play::{ChildRun, Play};
use crate::path::{Path, parent_text};
use crate::values::{Bytes, List, Memory, Text};
use crate::world::{FileFault, Item, Kind, Placed, World};
use std::alloc::Global;

/// A world in memory. Calls are numbered from 0, and those of the given numbers are counted faults.
#[derive(Drop)]
pub struct MemWorld {
    alloc: Global,
    changes: Changes,
    script: Vec<Play>,
    numbers: Numbers,
    file_faults: u64,
    failed_at: Option<Path>,
    child_faults: u64,
    misused: u64,
    ghost standing: { IsTree (tree_of changes.list.items) },
}

impl MemWorld {
    /// The world with these items placed in order, each with folders at every path above it.
    pub fn new(
        alloc: Global,
        items: List<Placed>,
        script: List<Play>,
        faulty: List<u64>,
    ) -> Result<MemWorld, Memory>
        ensures tree { IfOk result (λ world. ⟦<MemWorld as World>⟧.tree world ≡ Some (all_placed items empty)) }
        ensures runs { IfOk result (λ world. ⟦<MemWorld as World>⟧.runs world ≡ []) }
        ensures files { IfOk result (λ world. ⟦<MemWorld as World>⟧.file_faults world ≡ 0) }
        ensures at { IfOk result (λ world. ⟦<MemWorld as World>⟧.failed_at world ≡ None) }
        ensures children { IfOk result (λ world. ⟦<MemWorld as World>⟧.child_faults world ≡ 0) }
        ensures misused { IfOk result (λ world. ⟦<MemWorld as World>⟧.misused world ≡ 0) }
    {
        let mut changes = Changes::new(alloc);
        changes.place_all(items.into_vec())?;
        Ok(MemWorld {
            alloc,
            changes,
            script: script.into_vec(),
            numbers: Numbers::new(faulty),
            file_faults: 0,
            failed_at: None,
            child_faults: 0,
            misused: 0,
        })
    }

    /// The children that ran, in order, with what they did.
    pub fn runs(&self) -> Result<Vec<&ChildRun>, Memory>
        ensures { IfOk result (λ rows. map row_of rows.items ≡ map end_of_run (⟦<MemWorld as World>⟧.runs self.now)) }
    {
        self.changes.runs()
    }

    // Takes the number of a call on files. It fails, and is counted, where its path is of the wrong kind or its number
    // is among those that fail.
    fn begin(&mut self, path: &Path, fits: bool) -> Result<(), FileFault>
        ensures changes { self.new.changes ≡ self.old.changes }
        ensures children { self.new.child_faults ≡ self.old.child_faults }
        ensures files { CountsFailed result self.old.file_faults self.new.file_faults }
        ensures at { LastFailed path.now result self.old.failed_at self.new.failed_at }
        ensures misused { CountsMisuse (Some fits) result self.old.misused self.new.misused }
    {
        let is_faulty = self.numbers.is_next_faulty();
        if fits && !is_faulty {
            return Ok(());
        }
        self.failed_at = Some(path.copy(self.alloc)?);
        self.file_faults = raised(self.file_faults);
        if !fits {
            self.misused = raised(self.misused);
        }
        Err(FileFault::Failed)
    }

    // Counts a child that gave no end.
    fn child_fault(&mut self) -> ChildFault
        ensures fault { result ≡ ChildFault.Failed }
        ensures changes { self.new.changes ≡ self.old.changes }
        ensures files { self.new.file_faults ≡ self.old.file_faults }
        ensures at { self.new.failed_at ≡ self.old.failed_at }
        ensures misused { self.new.misused ≡ self.old.misused }
        ensures children { Rose self.old.child_faults self.new.child_faults }
    {
        self.child_faults = raised(self.child_faults);
        ChildFault::Failed
    }

    fn can_create(&self, path: &str) -> bool
        ensures { result ≡ can_create (tree_of self.now.changes.list.items) path.now }
    {
        self.changes.is_file_or_absent(path) && self.changes.is_folder(parent_text(path))
    }

    fn can_make_link(&self, path: &str) -> bool
        ensures { result ≡ can_make_link (tree_of self.now.changes.list.items) path.now }
    {
        !self.changes.stands(path) && self.changes.is_folder(parent_text(path))
    }

    fn can_rename(&self, old: &str, new: &str) -> bool
        ensures { result ≡ can_rename (tree_of self.now.changes.list.items) old.now new.now }
    {
        self.changes.is_file(old)
            && self.changes.is_file_or_absent(new)
            && self.changes.is_folder(parent_text(new))
    }
}

impl World for MemWorld {
    ghost tree = { λ w. Some (tree_of w.changes.list.items) };

    ghost file_faults = { λ w. w.file_faults };

    ghost failed_at = { λ w. w.failed_at };

    ghost child_faults = { λ w. w.child_faults };

    ghost misused = { λ w. w.misused };

    ghost runs = { λ w. runs_of w.changes.list.items };

    ghost standing = { λ w. w.standing };

    fn kind(&mut self, path: &Path) -> Result<Kind, FileFault> {
        self.begin(path, true)?;
        Ok(self.changes.kind(path.as_str()))
    }

    fn list(&mut self, path: &Path) -> Result<List<Text>, FileFault> {
        let fits = self.changes.is_folder(path.as_str());
        self.begin(path, fits)?;
        Ok(List::from_vec(self.changes.names(path.as_str())?))
    }

    fn read(&mut self, path: &Path, at: u64, max: u64) -> Result<Bytes, FileFault> {
        let fits = self.changes.is_file(path.as_str());
        self.begin(path, fits)?;
        Ok(self.changes.read(path.as_str(), at, max)?)
    }

    #[tactic(auto, using(crate::proofs::Standing::keeps))]
    fn create(&mut self, path: &Path, exec: bool) -> Result<(), FileFault> {
        let fits = self.can_create(path.as_str());
        self.begin(path, fits)?;
        let bytes = Bytes::from_vec(Vec::new(self.alloc));
        self.changes.set(path.as_str(), Item::File { exec, bytes })?;
        Ok(())
    }

    #[tactic(auto, using(crate::proofs::Standing::keeps))]
    fn append(&mut self, path: &Path, bytes: &[u8]) -> Result<(), FileFault> {
        let fits = self.changes.is_file(path.as_str());
        self.begin(path, fits)?;
        self.changes.append(path.as_str(), bytes)?;
        Ok(())
    }

    #[tactic(auto, using(crate::proofs::Standing::keeps))]
    fn make_folder(&mut self, path: &Path) -> Result<(), FileFault> {
        let fits = self.changes.can_make_folder(path.as_str());
        self.begin(path, fits)?;
        self.changes.make_folder(path.as_str())?;
        Ok(())
    }

    #[tactic(auto, using(crate::proofs::Standing::keeps))]
    fn rename(&mut self, old: &Path, new: &Path) -> Result<(), FileFault> {
        let fits = self.can_rename(old.as_str(), new.as_str());
        self.begin(new, fits)?;
        self.changes.rename(old.as_str(), new.as_str())?;
        Ok(())
    }

    #[tactic(auto, using(crate::proofs::Standing::keeps))]
    fn make_link(&mut self, path: &Path, target: &str) -> Result<(), FileFault> {
        let fits = self.can_make_link(path.as_str());
        self.begin(path, fits)?;
        let target = Text::of(self.alloc, target)?;
        self.changes.set(path.as_str(), Item::Link { target })?;
        Ok(())
    }

    fn read_link(&mut self, path: &Path) -> Result<Text, FileFault> {
        let fits = self.changes.is_link(path.as_str());
        self.begin(path, fits)?;
        Ok(self.changes.link_target(path.as_str())?)
    }

    #[tactic(auto, using(crate::proofs::Standing::keeps))]
    fn remove(&mut self, path: &Path) -> Result<(), FileFault> {
        let fits = path.as_str() != "/";
        self.begin(path, fits)?;
        self.changes.empty(path.as_str())?;
        Ok(())
    }

    #[tactic(auto, using(crate::proofs::Standing::played_keeps, crate::proofs::ChangeLemmas::one_run))]
    fn run(&mut self, job: &ChildJob) -> Result<End, ChildFault> {
        if self.numbers.is_next_faulty() {
            return Err(self.child_fault());
        }
        let Some(place) = place_of(&self.script, job.program.as_str()) else {
            return Err(self.child_fault());
        };
        let end = self.script[place].end_of(self.alloc, job)?;
        let kept = end.copy(self.alloc)?;
        let job = job.copy(self.alloc)?;
        self.changes
            .make_room_for(self.script[place].leaves.as_slice())?;
        let Play {
            removes,
            leaves,
            ..
        } = self.script.remove(place);
        self.changes.add_run(ChildRun {
            job,
            end: kept,
            removes,
            leaves,
        });
        Ok(end)
    }
}

// The place of the first play of a program in a script.
fn place_of(script: &[Play], program: &str) -> Option<usize>
    ensures { IfSome result (λ place. place < length script.now) }
{
    script
        .iter()
        .position(|play| play.program.as_str() == program)
}
