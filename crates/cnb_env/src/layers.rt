// The environment that layers give.
ghost use Rattle.std.specs.Prelude.{◌≡◌, IfErr, IfSome, IsTrue};
ghost use Rattle.std.specs.List.{All};
ghost use Rattle.std.specs.Option.{option_map};
ghost use Rattle.cnb_world.specs.Calls.{MayMisuse};
ghost use Rattle.cnb_world.specs.Path.{is_part, joined};
ghost use Rattle.steps.specs.Causes.{IsAnswer};
ghost use Rattle.steps.specs.Outside.{seen};
ghost use Rattle.steps.specs.Reading.{LeavesUnchanged};
ghost use Rattle.doc_files.specs.Faults.{read_cause};
ghost use Rattle.doc_files.specs.Reading.{BlamesOne};
ghost use Rattle.cnb_env.specs.Files.{IsOfFolder, is_fit_folder};
ghost use Rattle.cnb_env.specs.Layers.{AreShort, HasRoom, IsOfFolderIn, IsOfLayer, IsOfLayers, IsOfSets, IsShort};
ghost use Rattle.cnb_env.specs.Layers.{are_fit_folders, are_fit_sets, is_fit_layer, is_fit_set};
ghost use Rattle.cnb_env.specs.Layers.{each, folder_applied, giving, layer_applied, set_applied};
ghost use Rattle.cnb_env.specs.Layers.{launch_folders, phase_folders, type_folders, when_of};

use crate::apply_folder::env_folder;
use crate::paths::{When, put_paths};
use cnb_toml::ProcType;
use cnb_world::{Env, List, Path, World};
use doc_files::ReadFault;
use std::alloc::Global;

/// The folders of one buildpack's layers, ascending by layer name.
pub type LayerSet = List<Path>;

/// What the files of layers are applied for: a build, or the launch of a process, of this type where it has one.
#[derive(Drop)]
pub enum Phase {
    Build,
    Launch(Option<ProcType>),
}

fn when_of(phase: &Phase) -> When
    ensures { result ≡ when_of phase.now }
{
    match phase {
        Phase::Build => When::Build,
        Phase::Launch(_) => When::Launch,
    }
}

// Applies the files of a folder of the layer.
fn apply_folder<W: World>(
    alloc: Global,
    world: &mut W,
    env: &mut Env,
    layer: &Path,
    name: &str,
) -> Result<(), ReadFault>
    requires part { IsTrue (is_part name.now) }
    requires short { HasRoom layer.now }
    ensures reads { IfSome (W.tree world.old) (λ files.
        IsAnswer read_cause (giving env.new result) (folder_applied files (joined layer.now name.now) env.old)) }
    ensures blames { IfErr result (BlamesOne (IsOfFolder (joined layer.now name.now))) }
    ensures leaves { LeavesUnchanged read_cause result (seen W.World world.old) (seen W.World world.new) }
    ensures misused { MayMisuse (option_map (is_fit_folder (joined layer.now name.now)) (W.tree world.old))
        (W.misused world.old) (W.misused world.new) }
{
    let folder = layer.below(alloc, name)?;
    env_folder(alloc, world, env, &folder)?;
    Ok(())
}

// Applies the files of the folder that is for a process type, where one is given.
#[tactic(auto, using(crate::proofs::TypeLemmas::type_is_part))]
fn apply_type_folder<W: World>(
    alloc: Global,
    world: &mut W,
    env: &mut Env,
    folder: &Path,
    kind: &Option<ProcType>,
) -> Result<(), ReadFault>
    requires { HasRoom folder.now }
    ensures reads { IfSome (W.tree world.old) (λ files. IsAnswer read_cause (giving env.new result)
        (each (folder_applied files) (type_folders kind.now folder.now) env.old)) }
    ensures blames { IfErr result (BlamesOne (IsOfFolderIn folder.now)) }
    ensures leaves { LeavesUnchanged read_cause result (seen W.World world.old) (seen W.World world.new) }
    ensures misused { MayMisuse (option_map (λ files. are_fit_folders files (type_folders kind.now folder.now))
        (W.tree world.old)) (W.misused world.old) (W.misused world.new) }
{
    match kind {
        Some(kind) => apply_folder(alloc, world, env, folder, kind.as_str()),
        None => Ok(()),
    }
}

// Applies the environment files of one layer that are for a launch alone.
fn apply_launch_folders<W: World>(
    alloc: Global,
    world: &mut W,
    env: &mut Env,
    layer: &Path,
    kind: &Option<ProcType>,
) -> Result<(), ReadFault>
    requires { IsShort layer.now }
    ensures reads { IfSome (W.tree world.old) (λ files. IsAnswer read_cause (giving env.new result)
        (each (folder_applied files) (launch_folders kind.now layer.now) env.old)) }
    ensures blames { IfErr result (BlamesOne (IsOfLayer layer.now)) }
    ensures leaves { LeavesUnchanged read_cause result (seen W.World world.old) (seen W.World world.new) }
    ensures misused { MayMisuse (option_map (λ files. are_fit_folders files (launch_folders kind.now layer.now))
        (W.tree world.old)) (W.misused world.old) (W.misused world.new) }
{
    let folder = layer.below(alloc, "env.launch")?;
    env_folder(alloc, world, env, &folder)?;
    apply_type_folder(alloc, world, env, &folder, kind)?;
    Ok(())
}

// Applies the environment files of one layer that are for this phase alone.
fn apply_phase_folders<W: World>(
    alloc: Global,
    world: &mut W,
    env: &mut Env,
    layer: &Path,
    phase: &Phase,
) -> Result<(), ReadFault>
    requires { IsShort layer.now }
    ensures reads { IfSome (W.tree world.old) (λ files. IsAnswer read_cause (giving env.new result)
        (each (folder_applied files) (phase_folders phase.now layer.now) env.old)) }
    ensures blames { IfErr result (BlamesOne (IsOfLayer layer.now)) }
    ensures leaves { LeavesUnchanged read_cause result (seen W.World world.old) (seen W.World world.new) }
    ensures misused { MayMisuse (option_map (λ files. are_fit_folders files (phase_folders phase.now layer.now))
        (W.tree world.old)) (W.misused world.old) (W.misused world.new) }
{
    match phase {
        Phase::Build => apply_folder(alloc, world, env, layer, "env.build"),
        Phase::Launch(kind) => apply_launch_folders(alloc, world, env, layer, kind),
    }
}

// Applies the environment files of one layer.
fn apply_layer<W: World>(
    alloc: Global,
    world: &mut W,
    env: &mut Env,
    layer: &Path,
    phase: &Phase,
) -> Result<(), ReadFault>
    requires { IsShort layer.now }
    ensures reads { IfSome (W.tree world.old) (λ files.
        IsAnswer read_cause (giving env.new result) (layer_applied phase.now files layer.now env.old)) }
    ensures blames { IfErr result (BlamesOne (IsOfLayer layer.now)) }
    ensures leaves { LeavesUnchanged read_cause result (seen W.World world.old) (seen W.World world.new) }
    ensures misused { MayMisuse (option_map (λ files. is_fit_layer phase.now files layer.now) (W.tree world.old))
        (W.misused world.old) (W.misused world.new) }
{
    apply_folder(alloc, world, env, layer, "env")?;
    apply_phase_folders(alloc, world, env, layer, phase)?;
    Ok(())
}

// Applies the environment files of these layers, in order.
fn apply_layers<W: World>(
    alloc: Global,
    world: &mut W,
    env: &mut Env,
    layers: &[Path],
    phase: &Phase,
) -> Result<(), ReadFault>
    requires { All IsShort layers.now }
    ensures reads { IfSome (W.tree world.old) (λ files.
        IsAnswer read_cause (giving env.new result) (each (layer_applied phase.now files) layers.now env.old)) }
    ensures blames { IfErr result (BlamesOne (IsOfLayers layers.now)) }
    ensures leaves { LeavesUnchanged read_cause result (seen W.World world.old) (seen W.World world.new) }
    ensures misused { MayMisuse (option_map (λ files. is_fit_set phase.now files layers.now) (W.tree world.old))
        (W.misused world.old) (W.misused world.new) }
{
    for layer in layers {
        apply_layer(alloc, world, env, layer, phase)?;
    }
    Ok(())
}

// Puts the path folders of one buildpack's layers in front, and then applies their environment files.
fn apply_set<W: World>(
    alloc: Global,
    world: &mut W,
    env: &mut Env,
    layers: &LayerSet,
    phase: &Phase,
) -> Result<(), ReadFault>
    requires { All IsShort layers.now }
    ensures reads { IfSome (W.tree world.old) (λ files.
        IsAnswer read_cause (giving env.new result) (set_applied phase.now files layers.now env.old)) }
    ensures blames { IfErr result (BlamesOne (IsOfLayers layers.now)) }
    ensures leaves { LeavesUnchanged read_cause result (seen W.World world.old) (seen W.World world.new) }
    ensures misused { MayMisuse (option_map (λ files. is_fit_set phase.now files layers.now) (W.tree world.old))
        (W.misused world.old) (W.misused world.new) }
{
    let layers = layers.as_slice();
    put_paths(alloc, world, env, layers, when_of(phase))?;
    apply_layers(alloc, world, env, layers, phase)?;
    Ok(())
}

/// Applies what the layers of each buildpack give, in order.
pub(crate) fn apply_sets<W: World>(
    alloc: Global,
    world: &mut W,
    env: &mut Env,
    sets: &[LayerSet],
    phase: &Phase,
) -> Result<(), ReadFault>
    requires { All AreShort sets.now }
    ensures reads { IfSome (W.tree world.old) (λ files.
        IsAnswer read_cause (giving env.new result) (each (set_applied phase.now files) sets.now env.old)) }
    ensures blames { IfErr result (BlamesOne (IsOfSets sets.now)) }
    ensures leaves { LeavesUnchanged read_cause result (seen W.World world.old) (seen W.World world.new) }
    ensures misused { MayMisuse (option_map (λ files. are_fit_sets phase.now files sets.now) (W.tree world.old))
        (W.misused world.old) (W.misused world.new) }
{
    for layers in sets {
        apply_set(alloc, world, env, layers, phase)?;
    }
    Ok(())
}
