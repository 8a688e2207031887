// The layers of an image's buildpacks, and the programs in them.
ghost use Rattle.std.specs.Prelude.{◌≡◌, ◌≤◌, ◌++◌, IfErr, IfOk, IfSome, OnOk, length};
ghost use Rattle.std.specs.List.{All, flat_map};
ghost use Rattle.std.specs.Option.{option_map};
ghost use Rattle.cnb_world.specs.Calls.{MayMisuse};
ghost use Rattle.cnb_world.specs.Path.{joined};
ghost use Rattle.cnb_toml.specs.Names.{folder_of};
ghost use Rattle.steps.specs.Causes.{IsAnswer};
ghost use Rattle.steps.specs.Outside.{seen};
ghost use Rattle.steps.specs.Reading.{LeavesUnchanged};
ghost use Rattle.doc_files.specs.Faults.{read_cause};
ghost use Rattle.doc_files.specs.Reading.{BlamesOne};
ghost use Rattle.cnb_launch.specs.Folders.{AreWithin, IsOfFolders, all_exec_folders, exec_folders, set_folders};
ghost use Rattle.cnb_launch.specs.Planning.{are_fit_execs, are_fit_layers, execs_in, sets_in};

use crate::folders::{Wanted, all_in};
use crate::places::layers_folder;
use cnb_env::LayerSet;
use cnb_toml::{Key, ProcType};
use cnb_world::{List, Memory, Path, World};
use doc_files::ReadFault;
use image_docs::LaunchDoc;
use std::alloc::Global;

fn set_folder(alloc: Global, layers: &Path, key: &Key) -> Result<Path, Memory>
    requires { length layers.now ≤ 4103 }
    ensures path { IfOk result (λ path. path ≡ joined layers.now (folder_of key.now.id)) }
    ensures short { IfOk result (λ path. length path ≤ 4359) }
{
    let folder = key.id.folder(alloc)?;
    layers.below(alloc, folder.as_str())
}

fn set_folders(alloc: Global, root: &Path, keys: &[Key]) -> Result<List<Path>, Memory>
    requires { length root.now ≤ 4096 }
    ensures folders { IfOk result (λ folders. folders ≡ set_folders root.now keys.now) }
    ensures within { IfOk result (AreWithin 4359) }
{
    let layers = layers_folder(alloc, root)?;
    let mut folders = List::new(alloc);
    for key in keys {
        folders.push(set_folder(alloc, &layers, key)?)?;
    }
    Ok(folders)
}

/// The layers of each buildpack, ascending.
pub(crate) fn sets_in<W: World>(
    alloc: Global,
    world: &mut W,
    root: &Path,
    doc: &LaunchDoc,
) -> Result<List<LayerSet>, ReadFault>
    requires { length root.now ≤ 4096 }
    ensures reads { IfSome (W.tree world.old) (λ files.
        IsAnswer read_cause result (sets_in root.now doc.now.buildpacks files)) }
    ensures short { IfOk result (All (AreWithin 4615)) }
    ensures blames { IfErr result (BlamesOne (IsOfFolders (set_folders root.now doc.now.buildpacks))) }
    ensures leaves { LeavesUnchanged read_cause result (seen W.World world.old) (seen W.World world.new) }
    ensures misused { MayMisuse (option_map (are_fit_layers root.now doc.now.buildpacks) (W.tree world.old))
        (W.misused world.old) (W.misused world.new) }
{
    let folders = set_folders(alloc, root, doc.buildpacks.as_slice())?;
    let sets = all_in(alloc, world, folders.as_slice(), Wanted::Folders)?;
    Ok(sets)
}

// Adds the folders of a layer's programs: those of every process, then those of the type.
#[tactic(auto, using(cnb_env::proofs::TypeLemmas::type_is_part))]
fn push_exec_folders(
    alloc: Global,
    folders: &mut List<Path>,
    layer: &Path,
    kind: &Option<ProcType>,
) -> Result<(), Memory>
    requires { length layer.now ≤ 4615 }
    ensures pushed { OnOk result (folders.new ≡ folders.old ++ exec_folders kind.now layer.now) }
    ensures within { AreWithin 8448 folders.old → OnOk result (AreWithin 8448 folders.new) }
{
    let folder = layer.below(alloc, "exec.d")?;
    match kind {
        Some(kind) => {
            let of_type = folder.below(alloc, kind.as_str())?;
            folders.push(folder)?;
            folders.push(of_type)?;
            Ok(())
        }
        None => Ok(folders.push(folder)?),
    }
}

fn push_all(
    alloc: Global,
    folders: &mut List<Path>,
    layers: &[Path],
    kind: &Option<ProcType>,
) -> Result<(), Memory>
    requires { AreWithin 4615 layers.now }
    ensures pushed { OnOk result (folders.new ≡ folders.old ++ flat_map (exec_folders kind.now) layers.now) }
    ensures within { AreWithin 8448 folders.old → OnOk result (AreWithin 8448 folders.new) }
{
    for layer in layers {
        push_exec_folders(alloc, folders, layer, kind)?;
    }
    Ok(())
}

fn all_exec_folders(
    alloc: Global,
    sets: &[LayerSet],
    kind: &Option<ProcType>,
) -> Result<List<Path>, Memory>
    requires { All (AreWithin 4615) sets.now }
    ensures folders { IfOk result (λ folders. folders ≡ all_exec_folders kind.now sets.now) }
    ensures within { IfOk result (AreWithin 8448) }
{
    let mut folders = List::new(alloc);
    for layers in sets {
        push_all(alloc, &mut folders, layers.as_slice(), kind)?;
    }
    Ok(folders)
}

/// The programs in the `exec.d` of all layers, folder by folder.
pub(crate) fn execs_in<W: World>(
    alloc: Global,
    world: &mut W,
    sets: &List<LayerSet>,
    kind: &Option<ProcType>,
) -> Result<List<List<Path>>, ReadFault>
    requires { All (AreWithin 4615) sets.now }
    ensures reads { IfSome (W.tree world.old) (λ files. IsAnswer read_cause result (execs_in kind.now sets.now files)) }
    ensures blames { IfErr result (BlamesOne (IsOfFolders (all_exec_folders kind.now sets.now))) }
    ensures leaves { LeavesUnchanged read_cause result (seen W.World world.old) (seen W.World world.new) }
    ensures misused { MayMisuse (option_map (are_fit_execs kind.now sets.now) (W.tree world.old))
        (W.misused world.old) (W.misused world.new) }
{
    let folders = all_exec_folders(alloc, sets.as_slice(), kind)?;
    let execs = all_in(alloc, world, folders.as_slice(), Wanted::Files)?;
    Ok(execs)
}
