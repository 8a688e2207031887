// Folders of a store that may be absent.
ghost use Rattle.std.specs.Prelude.{◌≡◌, IfErr, IfOk, IfSome, Ok, is_some, true};
ghost use Rattle.cnb_world.specs.Calls.{AreNames};
ghost use Rattle.cnb_world.specs.Tree.{is_file, item_at};
ghost use Rattle.steps.specs.Causes.{IsAnswer};
ghost use Rattle.steps.specs.Outside.{seen};
ghost use Rattle.steps.specs.Reading.{LeavesUnchanged};
ghost use Rattle.doc_files.specs.Faults.{read_cause};
ghost use Rattle.doc_files.specs.Reading.{BlamesOnly};
ghost use Rattle.store_prune.specs.Listing.{lists, lists_where, looks_for, looks_for_file};

use crate::fault::PruneFault;
use cnb_world::{Kind, List, Path, Text, World};
use doc_files::{ReadFault, blamed, list_names};
use std::alloc::Global;

// Whether a regular file stands at a path.
#[tactic(auto, using(doc_files::proofs::Blame::blamed_last))]
fn file_stands<W: World>(alloc: Global, world: &mut W, path: &Path) -> Result<bool, ReadFault>
    ensures reads { IfSome (W.tree world.old)
        (λ files. IsAnswer read_cause result (Ok (is_file (item_at files path.now)))) }
    ensures blames { IfErr result (BlamesOnly path.now) }
    ensures leaves { LeavesUnchanged read_cause result (seen W.World world.old) (seen W.World world.new) }
    ensures misused { W.misused world.new ≡ W.misused world.old }
{
    match world.kind(path) {
        Ok(Kind::File { exec: _, len: _ }) => Ok(true),
        Ok(_) => Ok(false),
        Err(fault) => Err(blamed(alloc, path, fault)),
    }
}

// Whether anything stands at a path.
#[tactic(auto, using(doc_files::proofs::Blame::blamed_last))]
fn stands<W: World>(alloc: Global, world: &mut W, path: &Path) -> Result<bool, ReadFault>
    ensures reads { IfSome (W.tree world.old)
        (λ files. IsAnswer read_cause result (Ok (is_some (item_at files path.now)))) }
    ensures blames { IfErr result (BlamesOnly path.now) }
    ensures leaves { LeavesUnchanged read_cause result (seen W.World world.old) (seen W.World world.new) }
    ensures misused { W.misused world.new ≡ W.misused world.old }
{
    match world.kind(path) {
        Ok(Kind::Absent) => Ok(false),
        Ok(_) => Ok(true),
        Err(fault) => Err(blamed(alloc, path, fault)),
    }
}

/// Whether a regular file stands at a path. A link isn't followed.
pub(crate) fn is_file_at<W: World>(
    alloc: Global,
    world: &mut W,
    path: &Path,
) -> Result<bool, PruneFault>
    ensures steps { looks_for_file path.now (seen W.World world.old) result (seen W.World world.new) }
{
    let there = file_stands(alloc, world, path)?;
    Ok(there)
}

// Whether anything stands at a path.
fn is_there_at<W: World>(alloc: Global, world: &mut W, path: &Path) -> Result<bool, PruneFault>
    ensures steps { looks_for path.now (seen W.World world.old) result (seen W.World world.new) }
{
    let there = stands(alloc, world, path)?;
    Ok(there)
}

// The names in what stands at a path.
fn list_there<W: World>(
    alloc: Global,
    world: &mut W,
    folder: &Path,
) -> Result<List<Text>, PruneFault>
    ensures names { IfOk result AreNames }
    ensures steps { lists_where folder.now true (seen W.World world.old) result (seen W.World world.new) }
{
    let names = list_names(alloc, world, folder)?;
    Ok(names)
}

/// The names in a folder, ascending; none where nothing stands there. What is no folder can't be listed: `File`.
pub(crate) fn list_folder<W: World>(
    alloc: Global,
    world: &mut W,
    folder: &Path,
) -> Result<List<Text>, PruneFault>
    ensures names { IfOk result AreNames }
    ensures steps { lists folder.now (seen W.World world.old) result (seen W.World world.new) }
{
    let there = is_there_at(alloc, world, folder)?;
    if !there {
        return Ok(List::new(alloc));
    }
    list_there(alloc, world, folder)
}
