// Files.
ghost use Rattle.std.specs.Prelude.{◌≡◌, ◌≤◌, List as Seq, ℕ, length, take, drop, Option, IfOk, IfSome, OnOk, OnErr};
ghost use Rattle.std.specs.Prelude.{not, false, is_some, ◌++◌, ◌∷◌, []};
ghost use Rattle.std.specs.Option.{option_map};
ghost use Rattle.cnb_world.specs.Tree.{Tree, IsTree, item_at, kind_of, bytes_of, can_list, can_read, can_create};
ghost use Rattle.cnb_world.specs.Tree.{can_make_folder, can_make_link, can_read_link, can_rename, created, appended};
ghost use Rattle.cnb_world.specs.Tree.{folder_made, is_root, linked, renamed, target_of, without, Lists};
ghost use Rattle.cnb_world.specs.Calls.{CountsChild, CountsFailed, CountsMisuse, LastFailed, AreNames, AppendsSome};
ghost use Rattle.cnb_world.specs.Calls.{RemovesSome};
ghost use Rattle.cnb_world.specs.Runs.{Run};

use crate::child::{ChildFault, ChildJob, End};
use crate::path::Path;
use crate::values::{Bytes, List, Memory, Text};
use std::alloc::AllocError;

/// What stands at a path. A file's length is in bytes.
#[derive(Clone, Copy, Debug, PartialEq, Eq)]
pub enum Kind {
    Absent,
    File { exec: bool, len: u64 },
    Folder,
    Link,
    Odd,
}

/// What stands at a path, with its contents. `Odd` is what is none of these, as a device or a pipe.
#[derive(Drop)]
pub enum Item {
    Folder,
    File { exec: bool, bytes: Bytes },
    Link { target: Text },
    Odd,
}

/// An item at its path.
#[derive(Drop)]
pub struct Placed {
    pub path: Path,
    pub item: Item,
}

/// Why a call on files gave no answer.
#[derive(Clone, Copy, Debug, PartialEq, Eq)]
pub enum FileFault {
    Failed,
    Memory,
}

impl From<Memory> for FileFault {
    ghost use Rattle.std.specs.Prelude.{◌≡◌};
    ghost use Rattle.cnb_world.specs.declared.world.FileFault.TheVariants.{Memory};

    ghost from_gives = { λ _ e. e ≡ Memory };

    fn from(_: Memory) -> Self {
        FileFault::Memory
    }
}

impl From<AllocError> for FileFault {
    ghost use Rattle.std.specs.Prelude.{◌≡◌};
    ghost use Rattle.cnb_world.specs.declared.world.FileFault.TheVariants.{Memory};

    ghost from_gives = { λ _ e. e ≡ Memory };

    fn from(_: AllocError) -> Self {
        FileFault::Memory
    }
}

/// Files, and children that run over them. Where the tree is told, a call whose path has another kind than it needs
/// fails, and is counted.
pub trait World {
    /// What stands at each path, where it is told.
    ghost tree: { Self → Option Tree };

    /// The calls on files that failed.
    ghost file_faults: { Self → ℕ };

    /// The path whose call failed last: of a renaming, the new one.
    ghost failed_at: { Self → Option (Seq ℕ) };

    /// The children that gave no end.
    ghost child_faults: { Self → ℕ };

    /// How many of the file faults came from a path of another kind than the call needs.
    ghost misused: { Self → ℕ };

    /// The children that ran, in order.
    ghost runs: { Self → Seq Run };

    /// All that stands has a path other than `/`, and stands in a folder.
    ghost standing: { (w : Self) → IfSome (tree w) IsTree };

    /// What stands at the path. A link isn't followed.
    fn kind(&mut self, path: &Path) -> Result<Kind, FileFault>
        ensures told { IfSome (tree self.old) (λ t. IfOk result (λ k. k ≡ kind_of (item_at t path.now))) }
        ensures tree { tree self.new ≡ tree self.old }
        ensures files { CountsFailed result (file_faults self.old) (file_faults self.new) }
        ensures at { LastFailed path.now result (failed_at self.old) (failed_at self.new) }
        ensures children { child_faults self.new ≡ child_faults self.old }
        ensures runs { runs self.new ≡ runs self.old }
        ensures misused { misused self.new ≡ misused self.old };

    /// The names in the folder, ascending.
    fn list(&mut self, path: &Path) -> Result<List<Text>, FileFault>
        ensures names { IfOk result AreNames }
        ensures told { IfSome (tree self.old) (λ t. IfOk result (Lists t path.now)) }
        ensures tree { tree self.new ≡ tree self.old }
        ensures files { CountsFailed result (file_faults self.old) (file_faults self.new) }
        ensures at { LastFailed path.now result (failed_at self.old) (failed_at self.new) }
        ensures children { child_faults self.new ≡ child_faults self.old }
        ensures runs { runs self.new ≡ runs self.old }
        ensures misused { CountsMisuse (option_map (λ t. can_list t path.now) (tree self.old)) result
            (misused self.old) (misused self.new) };

    /// The file's bytes from `at` on, at most `max` of them.
    fn read(&mut self, path: &Path, at: u64, max: u64) -> Result<Bytes, FileFault>
        ensures bound { IfOk result (λ bytes. length bytes ≤ max) }
        ensures told { IfSome (tree self.old)
            (λ t. IfOk result (λ bytes. bytes ≡ take max (drop at (bytes_of (item_at t path.now))))) }
        ensures tree { tree self.new ≡ tree self.old }
        ensures files { CountsFailed result (file_faults self.old) (file_faults self.new) }
        ensures at { LastFailed path.now result (failed_at self.old) (failed_at self.new) }
        ensures children { child_faults self.new ≡ child_faults self.old }
        ensures runs { runs self.new ≡ runs self.old }
        ensures misused { CountsMisuse (option_map (λ t. can_read t path.now) (tree self.old)) result
            (misused self.old) (misused self.new) };

    /// Makes an empty file, in place of a file that stands there.
    fn create(&mut self, path: &Path, exec: bool) -> Result<(), FileFault>
        ensures ok { OnOk result (tree self.new ≡ option_map (created path.now exec) (tree self.old)) }
        ensures err { OnErr result (tree self.new ≡ tree self.old) }
        ensures files { CountsFailed result (file_faults self.old) (file_faults self.new) }
        ensures at { LastFailed path.now result (failed_at self.old) (failed_at self.new) }
        ensures children { child_faults self.new ≡ child_faults self.old }
        ensures runs { runs self.new ≡ runs self.old }
        ensures misused { CountsMisuse (option_map (λ t. can_create t path.now) (tree self.old)) result
            (misused self.old) (misused self.new) };

    /// Adds bytes to the file.
    fn append(&mut self, path: &Path, bytes: &[u8]) -> Result<(), FileFault>
        ensures ok { OnOk result (tree self.new ≡ option_map (appended path.now bytes.now) (tree self.old)) }
        ensures err { OnErr result (AppendsSome (tree self.old) (tree self.new) path.now bytes.now) }
        ensures files { CountsFailed result (file_faults self.old) (file_faults self.new) }
        ensures at { LastFailed path.now result (failed_at self.old) (failed_at self.new) }
        ensures children { child_faults self.new ≡ child_faults self.old }
        ensures runs { runs self.new ≡ runs self.old }
        ensures misused { CountsMisuse (option_map (λ t. can_read t path.now) (tree self.old)) result
            (misused self.old) (misused self.new) };

    /// Makes the folder and those above it that are missing.
    fn make_folder(&mut self, path: &Path) -> Result<(), FileFault>
        ensures ok { OnOk result (tree self.new ≡ option_map (folder_made path.now) (tree self.old)) }
        ensures err { OnErr result (tree self.new ≡ tree self.old) }
        ensures files { CountsFailed result (file_faults self.old) (file_faults self.new) }
        ensures at { LastFailed path.now result (failed_at self.old) (failed_at self.new) }
        ensures children { child_faults self.new ≡ child_faults self.old }
        ensures runs { runs self.new ≡ runs self.old }
        ensures misused { CountsMisuse (option_map (λ t. can_make_folder t path.now) (tree self.old)) result
            (misused self.old) (misused self.new) };

    /// Gives the file a new name, in place of a file that has it.
    fn rename(&mut self, old: &Path, new: &Path) -> Result<(), FileFault>
        ensures ok { OnOk result (tree self.new ≡ option_map (renamed old.now new.now) (tree self.old)) }
        ensures err { OnErr result (tree self.new ≡ tree self.old) }
        ensures files { CountsFailed result (file_faults self.old) (file_faults self.new) }
        ensures at { LastFailed new.now result (failed_at self.old) (failed_at self.new) }
        ensures children { child_faults self.new ≡ child_faults self.old }
        ensures runs { runs self.new ≡ runs self.old }
        ensures misused { CountsMisuse (option_map (λ t. can_rename t old.now new.now) (tree self.old)) result
            (misused self.old) (misused self.new) };

    /// Makes a link, where nothing stands.
    fn make_link(&mut self, path: &Path, target: &str) -> Result<(), FileFault>
        ensures ok { OnOk result (tree self.new ≡ option_map (linked path.now target.now) (tree self.old)) }
        ensures err { OnErr result (tree self.new ≡ tree self.old) }
        ensures files { CountsFailed result (file_faults self.old) (file_faults self.new) }
        ensures at { LastFailed path.now result (failed_at self.old) (failed_at self.new) }
        ensures children { child_faults self.new ≡ child_faults self.old }
        ensures runs { runs self.new ≡ runs self.old }
        ensures misused { CountsMisuse (option_map (λ t. can_make_link t path.now) (tree self.old)) result
            (misused self.old) (misused self.new) };

    /// The target of the link.
    fn read_link(&mut self, path: &Path) -> Result<Text, FileFault>
        ensures told { IfSome (tree self.old) (λ t. IfOk result (λ target. target ≡ target_of (item_at t path.now))) }
        ensures tree { tree self.new ≡ tree self.old }
        ensures files { CountsFailed result (file_faults self.old) (file_faults self.new) }
        ensures at { LastFailed path.now result (failed_at self.old) (failed_at self.new) }
        ensures children { child_faults self.new ≡ child_faults self.old }
        ensures runs { runs self.new ≡ runs self.old }
        ensures misused { CountsMisuse (option_map (λ t. can_read_link t path.now) (tree self.old)) result
            (misused self.old) (misused self.new) };

    /// Takes away what stands at the path and below it.
    fn remove(&mut self, path: &Path) -> Result<(), FileFault>
        ensures ok { OnOk result (tree self.new ≡ option_map (without path.now) (tree self.old)) }
        ensures err { OnErr result (RemovesSome (tree self.old) (tree self.new) path.now) }
        ensures files { CountsFailed result (file_faults self.old) (file_faults self.new) }
        ensures at { LastFailed path.now result (failed_at self.old) (failed_at self.new) }
        ensures children { child_faults self.new ≡ child_faults self.old }
        ensures runs { runs self.new ≡ runs self.old }
        ensures misused { CountsMisuse (option_map (λ _. not (is_root path.now)) (tree self.old)) result
            (misused self.old) (misused self.new) };

    /// Runs the child to its end. It may change the files.
    fn run(&mut self, job: &ChildJob) -> Result<End, ChildFault>
        ensures ok { IfOk result (λ end. runs self.new
            ≡ runs self.old ++ record { job = job.now; end = end; found = tree self.old; left = tree self.new } ∷ []) }
        ensures bound { IfOk result (λ end. length end.side ≤ 1048577) }
        ensures side { job.now.side ≡ false → IfOk result (λ end. end.side ≡ []) }
        ensures told { is_some (tree self.new) ≡ is_some (tree self.old) }
        ensures err { OnErr result (runs self.new ≡ runs self.old) }
        ensures err_tree { OnErr result (tree self.new ≡ tree self.old) }
        ensures files { file_faults self.new ≡ file_faults self.old }
        ensures at { failed_at self.new ≡ failed_at self.old }
        ensures children { CountsChild result (child_faults self.old) (child_faults self.new) }
        ensures misused { misused self.new ≡ misused self.old };
}
