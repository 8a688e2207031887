// What is asked of a folder.
ghost use Rattle.std.specs.Prelude.{◌≡◌, IfErr, IfOk, IfSome, Ok};
ghost use Rattle.std.specs.Option.{option_map};
ghost use Rattle.cnb_world.specs.Calls.{AreNames, MayMisuse};
ghost use Rattle.cnb_world.specs.Tree.{can_list, is_folder, item_at, kind_of};
ghost use Rattle.steps.specs.Causes.{IsAnswer};
ghost use Rattle.steps.specs.Outside.{seen};
ghost use Rattle.steps.specs.Reading.{LeavesUnchanged};
ghost use Rattle.doc_files.specs.Faults.{read_cause};
ghost use Rattle.doc_files.specs.Reading.{FailsAt, names_at};

use crate::fault::{ReadFault, blamed};
use cnb_world::{Kind, List, Path, Text, World};
use std::alloc::Global;

/// Whether a folder stands at the path.
#[tactic(auto, using(crate::proofs::Blame::blamed_last))]
pub fn is_folder<W: World>(alloc: Global, world: &mut W, path: &Path) -> Result<bool, ReadFault>
    ensures reads { IfSome (W.tree world.old)
        (λ files. IsAnswer read_cause result (Ok (is_folder (item_at files path.now)))) }
    ensures blames { IfErr result (FailsAt path.now) }
    ensures leaves { LeavesUnchanged read_cause result (seen W.World world.old) (seen W.World world.new) }
    ensures misused { W.misused world.new ≡ W.misused world.old }
{
    match world.kind(path) {
        Ok(Kind::Folder) => Ok(true),
        Ok(_) => Ok(false),
        Err(fault) => Err(blamed(alloc, path, fault)),
    }
}

/// The names in the folder, ascending. What is no folder can't be listed: `File`.
#[tactic(auto, using(crate::proofs::Blame::blamed_last))]
pub fn list_names<W: World>(
    alloc: Global,
    world: &mut W,
    folder: &Path,
) -> Result<List<Text>, ReadFault>
    ensures names { IfOk result AreNames }
    ensures reads { IfSome (W.tree world.old) (λ files. IsAnswer read_cause result (names_at files folder.now)) }
    ensures blames { IfErr result (FailsAt folder.now) }
    ensures leaves { LeavesUnchanged read_cause result (seen W.World world.old) (seen W.World world.new) }
    ensures misused { MayMisuse (option_map (λ files. can_list files folder.now) (W.tree world.old))
        (W.misused world.old) (W.misused world.new) }
{
    match world.list(folder) {
        Ok(names) => Ok(names),
        Err(fault) => Err(blamed(alloc, folder, fault)),
    }
}
