// The platform's environment files.
ghost use Rattle.std.specs.Prelude.{◌≤◌, IfErr, IfSome, length};
ghost use Rattle.std.specs.Option.{option_map};
ghost use Rattle.cnb_world.specs.Calls.{MayMisuse};
ghost use Rattle.steps.specs.Causes.{IsAnswer};
ghost use Rattle.steps.specs.Outside.{seen};
ghost use Rattle.steps.specs.Reading.{LeavesUnchanged};
ghost use Rattle.doc_files.specs.Faults.{read_cause};
ghost use Rattle.doc_files.specs.Reading.{BlamesOne};
ghost use Rattle.cnb_env.specs.Files.{IsOfFolder, is_fit_platform, platform_env, platform_files_in};

use crate::folder::folder_files;
use crate::names::Naming;
use cnb_world::{List, Path, Text, World};
use doc_files::ReadFault;
use std::alloc::Global;

/// An environment file: its name and its contents. The name of a file of `<platform>/env` is that of its variable
/// (platform.md, "User-Provided Variables").
#[derive(Drop)]
pub struct EnvFile {
    pub name: Text,
    pub value: Text,
}

/// The platform's environment files, ascending by name. There are none where nothing stands at `<platform>/env`. A link
/// is passed over, and a file whose name has `=` isn't read.
#[tactic(auto, using(crate::proofs::FileLemmas::folder_fits), unfolding(crate::specs::Files::platform_files_in))]
pub fn platform_files<W: World>(
    alloc: Global,
    world: &mut W,
    platform: &Path,
) -> Result<List<EnvFile>, ReadFault>
    requires { length platform.now ≤ 8192 }
    ensures reads { IfSome (W.tree world.old) (λ files.
        IsAnswer read_cause result (platform_files_in platform.now files)) }
    ensures blames { IfErr result (BlamesOne (IsOfFolder (platform_env platform.now))) }
    ensures leaves { LeavesUnchanged read_cause result (seen W.World world.old) (seen W.World world.new) }
    ensures misused { MayMisuse (option_map (is_fit_platform platform.now) (W.tree world.old))
        (W.misused world.old) (W.misused world.new) }
{
    let folder = platform.below(alloc, "env")?;
    Ok(folder_files(alloc, world, &folder, Naming::Whole)?)
}
