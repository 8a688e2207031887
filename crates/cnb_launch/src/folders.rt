// What stands in folders: the layers of buildpacks, and the programs in `exec.d`.
ghost use Rattle.std.specs.Prelude.{◌≡◌, ◌≢◌, ◌≤◌, ◌++◌, ◌∷◌, [], ◌+◌, ℕ, IfErr, IfOk, IfSome, IsTrue, OnOk, length};
ghost use Rattle.std.specs.List.{All};
ghost use Rattle.std.specs.Option.{option_map};
ghost use Rattle.cnb_world.specs.Calls.{AreNames, MayMisuse};
ghost use Rattle.cnb_world.specs.Path.{is_part};
ghost use Rattle.cnb_world.specs.Tree.{can_list};
ghost use Rattle.cnb_env.specs.Files.{IsOfFolder, is_fit_folder};
ghost use Rattle.steps.specs.Causes.{Decided, IsAnswer};
ghost use Rattle.steps.specs.Outside.{seen};
ghost use Rattle.steps.specs.Reading.{LeavesUnchanged};
ghost use Rattle.doc_files.specs.Faults.{read_cause};
ghost use Rattle.doc_files.specs.Reading.{BlamesOne};
ghost use Rattle.cnb_launch.specs.Folders.{AreWithin, IsOfFolders, all_in, are_fit, is_wanted, listed, wanted_among};
ghost use Rattle.cnb_launch.specs.Folders.{wanted_in};

use cnb_world::{Kind, List, Path, Text, World};
use doc_files::{ReadFault, blamed, list_names};
use std::alloc::Global;

/// What is wanted of a folder: the folders in it, or the regular files.
#[derive(Clone, Copy, Debug, PartialEq, Eq)]
pub(crate) enum Wanted {
    Folders,
    Files,
}

fn is_wanted(wanted: Wanted, kind: Kind) -> bool
    ensures { result ≡ is_wanted wanted kind }
{
    match wanted {
        Wanted::Folders => matches!(kind, Kind::Folder),
        Wanted::Files => matches!(kind, Kind::File { .. }),
    }
}

// The paths with that of a name behind them, where such a thing stands there.
#[tactic(auto, using(crate::proofs::FolderLemmas::below_within, crate::proofs::FolderLemmas::push_within, crate::proofs::FolderLemmas::blamed_fails, crate::proofs::FolderLemmas::blamed_below, doc_files::proofs::Blame::blamed_last))]
fn push_wanted<W: World>(
    alloc: Global,
    world: &mut W,
    paths: &mut List<Path>,
    folder: &Path,
    name: &Text,
    wanted: Wanted,
) -> Result<(), ReadFault>
    requires part { IsTrue (is_part name.now) }
    requires short { length folder.now ≤ 8448 }
    ensures found { IfSome (W.tree world.old) (λ files. OnOk result
        (paths.new ≡ paths.old ++ wanted_among wanted files folder.now (name.now ∷ []))) }
    ensures within { AreWithin (length folder.now + 256) paths.old
        → OnOk result (AreWithin (length folder.now + 256) paths.new) }
    ensures fails { IfErr result (λ fault. read_cause fault ≢ Decided) }
    ensures blames { IfErr result (BlamesOne (IsOfFolder folder.now)) }
    ensures leaves { LeavesUnchanged read_cause result (seen W.World world.old) (seen W.World world.new) }
    ensures misused { W.misused world.new ≡ W.misused world.old }
{
    let path = folder.below(alloc, name.as_str())?;
    match world.kind(&path) {
        Ok(kind) if is_wanted(wanted, kind) => Ok(paths.push(path)?),
        Ok(_) => Ok(()),
        Err(fault) => Err(blamed(alloc, &path, fault)),
    }
}

// The paths of these names where such a thing stands.
fn wanted_among<W: World>(
    alloc: Global,
    world: &mut W,
    folder: &Path,
    names: &[Text],
    wanted: Wanted,
) -> Result<List<Path>, ReadFault>
    requires names { AreNames names.now }
    requires short { length folder.now ≤ 8448 }
    ensures found { IfSome (W.tree world.old) (λ files. IfOk result (λ paths.
        paths ≡ wanted_among wanted files folder.now names.now)) }
    ensures within { IfOk result (AreWithin (length folder.now + 256)) }
    ensures fails { IfErr result (λ fault. read_cause fault ≢ Decided) }
    ensures blames { IfErr result (BlamesOne (IsOfFolder folder.now)) }
    ensures leaves { LeavesUnchanged read_cause result (seen W.World world.old) (seen W.World world.new) }
    ensures misused { W.misused world.new ≡ W.misused world.old }
{
    let mut paths = List::new(alloc);
    for name in names {
        push_wanted(alloc, world, &mut paths, folder, name, wanted)?;
    }
    Ok(paths)
}

// What is wanted of a folder that stands there.
#[tactic(auto, using(crate::proofs::FolderLemmas::fails_free, crate::proofs::FolderLemmas::fails_itself))]
fn listed<W: World>(
    alloc: Global,
    world: &mut W,
    folder: &Path,
    wanted: Wanted,
) -> Result<List<Path>, ReadFault>
    requires { length folder.now ≤ 8448 }
    ensures reads { IfSome (W.tree world.old) (λ files. IsAnswer read_cause result (listed wanted files folder.now)) }
    ensures within { IfOk result (AreWithin (length folder.now + 256)) }
    ensures blames { IfErr result (BlamesOne (IsOfFolder folder.now)) }
    ensures leaves { LeavesUnchanged read_cause result (seen W.World world.old) (seen W.World world.new) }
    ensures misused { MayMisuse (option_map (λ files. can_list files folder.now) (W.tree world.old))
        (W.misused world.old) (W.misused world.new) }
{
    let names = list_names(alloc, world, folder)?;
    let paths = wanted_among(alloc, world, folder, names.as_slice(), wanted)?;
    Ok(paths)
}

// What is wanted of a folder, ascending by name; nothing where nothing stands there.
#[tactic(auto, using(crate::proofs::FolderLemmas::blamed_itself, doc_files::proofs::Blame::blamed_last))]
fn wanted_in<W: World>(
    alloc: Global,
    world: &mut W,
    folder: &Path,
    wanted: Wanted,
) -> Result<List<Path>, ReadFault>
    requires { length folder.now ≤ 8448 }
    ensures reads { IfSome (W.tree world.old) (λ files.
        IsAnswer read_cause result (wanted_in wanted files folder.now)) }
    ensures within { IfOk result (AreWithin (length folder.now + 256)) }
    ensures blames { IfErr result (BlamesOne (IsOfFolder folder.now)) }
    ensures leaves { LeavesUnchanged read_cause result (seen W.World world.old) (seen W.World world.new) }
    ensures misused { MayMisuse (option_map (is_fit_folder folder.now) (W.tree world.old))
        (W.misused world.old) (W.misused world.new) }
{
    match world.kind(folder) {
        Ok(Kind::Absent) => Ok(List::new(alloc)),
        Ok(_) => Ok(listed(alloc, world, folder, wanted)?),
        Err(fault) => Err(blamed(alloc, folder, fault)),
    }
}

/// What is wanted of each of some folders, in order.
pub(crate) fn all_in<W: World>(
    alloc: Global,
    world: &mut W,
    folders: &[Path],
    wanted: Wanted,
) -> Result<List<List<Path>>, ReadFault>
    requires { AreWithin 8448 folders.now }
    ensures reads { IfSome (W.tree world.old) (λ files. IsAnswer read_cause result (all_in wanted folders.now files)) }
    ensures within { (room : ℕ) → AreWithin room folders.now → IfOk result (All (AreWithin (room + 256))) }
    ensures blames { IfErr result (BlamesOne (IsOfFolders folders.now)) }
    ensures leaves { LeavesUnchanged read_cause result (seen W.World world.old) (seen W.World world.new) }
    ensures misused { MayMisuse (option_map (are_fit folders.now) (W.tree world.old))
        (W.misused world.old) (W.misused world.new) }
{
    let mut all = List::new(alloc);
    for folder in folders {
        let paths = wanted_in(alloc, world, folder, wanted)?;
        all.push(paths)?;
    }
    Ok(all)
}
