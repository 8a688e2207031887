// The environment files of a folder in an environment.
ghost use Rattle.std.specs.Prelude.{◌≡◌, ◌≤◌, IfErr, IfSome, OnErr, OnOk, length};
ghost use Rattle.std.specs.Option.{option_map};
ghost use Rattle.cnb_world.specs.Calls.{MayMisuse};
ghost use Rattle.steps.specs.Causes.{IsAnswer};
ghost use Rattle.steps.specs.Outside.{seen};
ghost use Rattle.steps.specs.Reading.{LeavesUnchanged};
ghost use Rattle.doc_files.specs.Faults.{read_cause};
ghost use Rattle.doc_files.specs.Reading.{BlamesOne};
ghost use Rattle.cnb_env.specs.Apply.{HasFirst, all_applied, applied_among, delimiter_in, is_delimiter_of};
ghost use Rattle.cnb_env.specs.Files.{IsOfFolder, is_fit_folder};
ghost use Rattle.cnb_env.specs.Layers.{LeavesFirst, folder_applied, giving};

use crate::apply::apply_file;
use crate::files::EnvFile;
use crate::folder::folder_files;
use crate::names::{Naming, split_name};
use cnb_world::{Env, Memory, Path, World};
use doc_files::ReadFault;
use std::alloc::Global;

fn is_delimiter_of(file: &EnvFile, variable: &str) -> bool
    ensures { result ≡ is_delimiter_of file.now variable.now }
{
    let (own, suffix) = split_name(file.name.as_str());
    own == variable && suffix == "delim"
}

// The delimiter of a variable among the files of a folder.
fn delimiter<'a>(files: &'a [EnvFile], variable: &str) -> &'a str
    ensures { result.now ≡ delimiter_in files.now variable.now }
{
    for file in files {
        if is_delimiter_of(file, variable) {
            return file.value.as_str();
        }
    }
    ""
}

fn apply_among(
    alloc: Global,
    env: &mut Env,
    files: &[EnvFile],
    file: &EnvFile,
) -> Result<(), Memory>
    ensures applied { OnOk result (env.new ≡ applied_among files.now file.now env.old) }
    ensures refused { OnErr result (env.new ≡ env.old) }
{
    let name = file.name.as_str();
    let delim = delimiter(files, split_name(name).0);
    apply_file(alloc, env, name, file.value.as_str(), delim)?;
    Ok(())
}

// Applies the files of a folder in order.
#[tactic(auto, using(crate::proofs::Applied::one_more))]
fn apply_files(alloc: Global, env: &mut Env, files: &[EnvFile]) -> Result<(), Memory>
    ensures applied { OnOk result (env.new ≡ all_applied files.now env.old) }
    ensures refused { OnErr result (HasFirst (applied_among files.now) files.now env.old env.new) }
{
    for file in files {
        apply_among(alloc, env, files, file)?;
    }
    Ok(())
}

/// Applies the regular files of a folder, ascending by name (buildpack.md, "Environment Variable Modification Rules").
/// Nothing is done where nothing stands at the path.
pub fn env_folder<W: World>(
    alloc: Global,
    world: &mut W,
    env: &mut Env,
    folder: &Path,
) -> Result<(), ReadFault>
    requires { length folder.now ≤ 16384 }
    ensures reads { IfSome (W.tree world.old) (λ files.
        IsAnswer read_cause (giving env.new result) (folder_applied files folder.now env.old)) }
    ensures refused { LeavesFirst result (W.tree world.old) folder.now env.old env.new }
    ensures blames { IfErr result (BlamesOne (IsOfFolder folder.now)) }
    ensures leaves { LeavesUnchanged read_cause result (seen W.World world.old) (seen W.World world.new) }
    ensures misused { MayMisuse (option_map (is_fit_folder folder.now) (W.tree world.old))
        (W.misused world.old) (W.misused world.new) }
{
    let files = folder_files(alloc, world, folder, Naming::BeforeDot)?;
    apply_files(alloc, env, files.as_slice())?;
    Ok(())
}
