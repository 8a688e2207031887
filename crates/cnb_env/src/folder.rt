// The environment files of a folder.
ghost use Rattle.std.specs.Prelude.{◌≡◌, ◌≤◌, IfErr, IfSome, OnOk, length};
ghost use Rattle.std.specs.Option.{option_map};
ghost use Rattle.cnb_world.specs.Calls.{AreNames, MayMisuse};
ghost use Rattle.cnb_world.specs.Tree.{can_list};
ghost use Rattle.steps.specs.Causes.{IsAnswer};
ghost use Rattle.steps.specs.Outside.{seen};
ghost use Rattle.steps.specs.Reading.{LeavesUnchanged};
ghost use Rattle.doc_files.specs.Faults.{read_cause};
ghost use Rattle.doc_files.specs.Reading.{BlamesOne};
ghost use Rattle.cnb_env.specs.Contents.{with_found};
ghost use Rattle.cnb_env.specs.Files.{IsOfFolder, files_of, folder_files_in, is_absent, is_fit_folder, listed_files};

use crate::file::read_file;
use crate::files::EnvFile;
use crate::names::Naming;
use cnb_world::{Kind, List, Memory, Path, Text, World};
use doc_files::{ReadFault, blamed, list_names};
use std::alloc::Global;

fn push_found(files: &mut List<EnvFile>, found: Option<EnvFile>) -> Result<(), Memory>
    ensures { OnOk result (files.new ≡ with_found files.old found) }
{
    if let Some(file) = found {
        files.push(file)?;
    }
    Ok(())
}

// The files of these names, in order.
fn read_files<W: World>(
    alloc: Global,
    world: &mut W,
    folder: &Path,
    names: &[Text],
    naming: Naming,
) -> Result<List<EnvFile>, ReadFault>
    requires names { AreNames names.now }
    requires short { length folder.now ≤ 16384 }
    ensures reads { IfSome (W.tree world.old) (λ files.
        IsAnswer read_cause result (files_of naming files folder.now names.now)) }
    ensures blames { IfErr result (BlamesOne (IsOfFolder folder.now)) }
    ensures leaves { LeavesUnchanged read_cause result (seen W.World world.old) (seen W.World world.new) }
    ensures misused { W.misused world.new ≡ W.misused world.old }
{
    let mut files = List::new(alloc);
    for name in names {
        let found = read_file(alloc, world, folder, name, naming)?;
        push_found(&mut files, found)?;
    }
    Ok(files)
}

// The files of a folder that stands there, ascending by name.
fn read_folder<W: World>(
    alloc: Global,
    world: &mut W,
    folder: &Path,
    naming: Naming,
) -> Result<List<EnvFile>, ReadFault>
    requires { length folder.now ≤ 16384 }
    ensures reads { IfSome (W.tree world.old) (λ files.
        IsAnswer read_cause result (listed_files naming files folder.now)) }
    ensures blames { IfErr result (BlamesOne (IsOfFolder folder.now)) }
    ensures leaves { LeavesUnchanged read_cause result (seen W.World world.old) (seen W.World world.new) }
    ensures misused { MayMisuse (option_map (λ files. can_list files folder.now) (W.tree world.old))
        (W.misused world.old) (W.misused world.new) }
{
    let names = list_names(alloc, world, folder)?;
    let files = read_files(alloc, world, folder, names.as_slice(), naming)?;
    Ok(files)
}

fn is_absent(kind: Kind) -> bool
    ensures { result ≡ is_absent kind }
{
    matches!(kind, Kind::Absent)
}

/// The files of a folder, ascending by name. A link is passed over, and a file that is ignored isn't read.
#[tactic(auto, using(doc_files::proofs::Blame::blamed_last))]
pub(crate) fn folder_files<W: World>(
    alloc: Global,
    world: &mut W,
    folder: &Path,
    naming: Naming,
) -> Result<List<EnvFile>, ReadFault>
    requires { length folder.now ≤ 16384 }
    ensures reads { IfSome (W.tree world.old) (λ files.
        IsAnswer read_cause result (folder_files_in naming folder.now files)) }
    ensures blames { IfErr result (BlamesOne (IsOfFolder folder.now)) }
    ensures leaves { LeavesUnchanged read_cause result (seen W.World world.old) (seen W.World world.new) }
    ensures misused { MayMisuse (option_map (is_fit_folder folder.now) (W.tree world.old))
        (W.misused world.old) (W.misused world.new) }
{
    match world.kind(folder) {
        Ok(kind) if is_absent(kind) => Ok(List::new(alloc)),
        Ok(_) => Ok(read_folder(alloc, world, folder, naming)?),
        Err(fault) => Err(blamed(alloc, folder, fault)),
    }
}
