// The path folders of layers in an environment.
ghost use Rattle.std.specs.Prelude.{◌≡◌, ◌++◌, ◌∷◌, [], IfErr, IfOk, IfSome, IsTrue, Ok, OnErr, OnOk};
ghost use Rattle.std.specs.Prelude.{codes, filter, string_bytes};
ghost use Rattle.std.specs.List.{All, join_by};
ghost use Rattle.cnb_world.specs.Path.{is_part};
ghost use Rattle.cnb_world.specs.Tree.{is_folder, item_at};
ghost use Rattle.steps.specs.Causes.{IsAnswer};
ghost use Rattle.steps.specs.Outside.{seen};
ghost use Rattle.steps.specs.Reading.{LeavesUnchanged};
ghost use Rattle.doc_files.specs.Faults.{read_cause};
ghost use Rattle.doc_files.specs.Reading.{BlamesOne, FailsAt};
ghost use Rattle.cnb_env.specs.Layers.{FailsOne, IsOfLayers, IsShort, folders_at, giving, separated, standing_at};
ghost use Rattle.cnb_env.specs.Layers.{with_build_paths, with_front, with_launch_paths, with_paths};

use crate::apply::{in_front, text_of};
use cnb_world::{Env, List, Memory, Path, Text, World};
use doc_files::{ReadFault, is_folder};
use std::alloc::Global;

/// What an environment is made for.
#[derive(Clone, Copy, Debug, PartialEq, Eq)]
pub enum When {
    Build,
    Launch,
}

// The paths with this one behind them, where a folder stands there.
fn push_standing<W: World>(
    alloc: Global,
    world: &mut W,
    paths: &mut List<Path>,
    path: Path,
) -> Result<(), ReadFault>
    ensures found { IfSome (W.tree world.old) (λ files. OnOk result (paths.new ≡ paths.old ++ filter (λ p.
        is_folder (item_at files p)) (path ∷ []))) }
    ensures fails { IfErr result (FailsAt path) }
    ensures leaves { LeavesUnchanged read_cause result (seen W.World world.old) (seen W.World world.new) }
    ensures misused { W.misused world.new ≡ W.misused world.old }
{
    if is_folder(alloc, world, &path)? {
        paths.push(path)?;
    }
    Ok(())
}

// The folders of a name in the layers.
fn standing<W: World>(
    alloc: Global,
    world: &mut W,
    layers: &[Path],
    name: &str,
) -> Result<List<Path>, ReadFault>
    requires part { IsTrue (is_part name.now) }
    requires short { All IsShort layers.now }
    ensures found { IfSome (W.tree world.old) (λ files. IfOk result (λ paths.
        paths ≡ standing_at files layers.now name.now)) }
    ensures fails { IfErr result (FailsOne (IsOfLayers layers.now)) }
    ensures leaves { LeavesUnchanged read_cause result (seen W.World world.old) (seen W.World world.new) }
    ensures misused { W.misused world.new ≡ W.misused world.old }
{
    let mut paths = List::new(alloc);
    for layer in layers {
        let path = layer.below(alloc, name)?;
        push_standing(alloc, world, &mut paths, path)?;
    }
    Ok(paths)
}

fn push_separated(text: &mut String, is_first: bool, path: &str) -> Result<(), Memory>
    ensures { OnOk result (string_bytes text.new ≡ separated is_first (string_bytes text.old) path.now) }
{
    if !is_first {
        text.push_str(":")?;
    }
    text.push_str(path)?;
    Ok(())
}

fn joined_paths(alloc: Global, paths: &[Path]) -> Result<Text, Memory>
    ensures { IfOk result (λ text. text ≡ join_by (λ path. path) (codes ":") paths.now) }
{
    let mut text = String::new(alloc);
    for (place, path) in paths.iter().enumerate() {
        push_separated(&mut text, place == 0, path.as_str())?;
    }
    Ok(Text::from_string(text))
}

// The folders of a name in the layers, joined by `:`.
fn folders<W: World>(
    alloc: Global,
    world: &mut W,
    layers: &[Path],
    name: &str,
) -> Result<Text, ReadFault>
    requires part { IsTrue (is_part name.now) }
    requires short { All IsShort layers.now }
    ensures found { IfSome (W.tree world.old) (λ files. IfOk result (λ text.
        text ≡ folders_at files layers.now name.now)) }
    ensures fails { IfErr result (FailsOne (IsOfLayers layers.now)) }
    ensures leaves { LeavesUnchanged read_cause result (seen W.World world.old) (seen W.World world.new) }
    ensures misused { W.misused world.new ≡ W.misused world.old }
{
    let paths = standing(alloc, world, layers, name)?;
    let text = joined_paths(alloc, paths.as_slice())?;
    Ok(text)
}

// Puts folders in front of a path variable, where there are any.
fn put_front(alloc: Global, env: &mut Env, name: &str, folders: &Text) -> Result<(), Memory>
    ensures { OnOk result (env.new ≡ with_front name.now folders.now env.old) }
{
    let folders = folders.as_str();
    if folders.is_empty() {
        return Ok(());
    }
    let value = in_front(alloc, text_of(env, name), ":", folders)?;
    let name = Text::of(alloc, name)?;
    env.set(name, value)?;
    Ok(())
}

// Puts the folders of a name in the layers in front of a path variable.
fn put_folders<W: World>(
    alloc: Global,
    world: &mut W,
    env: &mut Env,
    layers: &[Path],
    name: &str,
    variable: &str,
) -> Result<(), ReadFault>
    requires part { IsTrue (is_part name.now) }
    requires short { All IsShort layers.now }
    ensures found { IfSome (W.tree world.old) (λ files. OnOk result (env.new ≡
        with_front variable.now (folders_at files layers.now name.now) env.old)) }
    ensures fails { IfErr result (FailsOne (IsOfLayers layers.now)) }
    ensures leaves { LeavesUnchanged read_cause result (seen W.World world.old) (seen W.World world.new) }
    ensures misused { W.misused world.new ≡ W.misused world.old }
{
    let folders = folders(alloc, world, layers, name)?;
    put_front(alloc, env, variable, &folders)?;
    Ok(())
}

// Puts the path folders of a launch in front of their variables.
fn put_launch_paths<W: World>(
    alloc: Global,
    world: &mut W,
    env: &mut Env,
    layers: &[Path],
) -> Result<(), ReadFault>
    requires { All IsShort layers.now }
    ensures found { IfSome (W.tree world.old) (λ files.
        OnOk result (env.new ≡ with_launch_paths files layers.now env.old)) }
    ensures fails { IfErr result (FailsOne (IsOfLayers layers.now)) }
    ensures leaves { LeavesUnchanged read_cause result (seen W.World world.old) (seen W.World world.new) }
    ensures misused { W.misused world.new ≡ W.misused world.old }
{
    put_folders(alloc, world, env, layers, "bin", "PATH")?;
    put_folders(alloc, world, env, layers, "lib", "LD_LIBRARY_PATH")
}

// Puts the path folders of a build in front of their variables.
fn put_build_paths<W: World>(
    alloc: Global,
    world: &mut W,
    env: &mut Env,
    layers: &[Path],
) -> Result<(), ReadFault>
    requires { All IsShort layers.now }
    ensures found { IfSome (W.tree world.old) (λ files.
        OnOk result (env.new ≡ with_build_paths files layers.now env.old)) }
    ensures fails { IfErr result (FailsOne (IsOfLayers layers.now)) }
    ensures leaves { LeavesUnchanged read_cause result (seen W.World world.old) (seen W.World world.new) }
    ensures misused { W.misused world.new ≡ W.misused world.old }
{
    put_folders(alloc, world, env, layers, "bin", "PATH")?;
    let lib = folders(alloc, world, layers, "lib")?;
    put_front(alloc, env, "LD_LIBRARY_PATH", &lib)?;
    put_front(alloc, env, "LIBRARY_PATH", &lib)?;
    put_folders(alloc, world, env, layers, "include", "CPATH")?;
    put_folders(alloc, world, env, layers, "pkgconfig", "PKG_CONFIG_PATH")
}

/// Puts the path folders of one buildpack's layers in front of their variables.
pub(crate) fn put_paths<W: World>(
    alloc: Global,
    world: &mut W,
    env: &mut Env,
    layers: &[Path],
    when: When,
) -> Result<(), ReadFault>
    requires { All IsShort layers.now }
    ensures found { IfSome (W.tree world.old) (λ files.
        OnOk result (env.new ≡ with_paths when files layers.now env.old)) }
    ensures fails { IfErr result (FailsOne (IsOfLayers layers.now)) }
    ensures leaves { LeavesUnchanged read_cause result (seen W.World world.old) (seen W.World world.new) }
    ensures misused { W.misused world.new ≡ W.misused world.old }
{
    match when {
        When::Build => put_build_paths(alloc, world, env, layers),
        When::Launch => put_launch_paths(alloc, world, env, layers),
    }
}

/// Puts the path folders of one buildpack's layers in front of their variables (buildpack.md, "Layer Paths").
pub fn layer_paths<W: World>(
    alloc: Global,
    world: &mut W,
    env: &mut Env,
    layers: &List<Path>,
    when: When,
) -> Result<(), ReadFault>
    requires { All IsShort layers.now }
    ensures reads { IfSome (W.tree world.old) (λ files.
        IsAnswer read_cause (giving env.new result) (Ok (with_paths when files layers.now env.old))) }
    ensures refused { OnErr result (env.new ≡ env.old) }
    ensures blames { IfErr result (BlamesOne (IsOfLayers layers.now)) }
    ensures leaves { LeavesUnchanged read_cause result (seen W.World world.old) (seen W.World world.new) }
    ensures misused { W.misused world.new ≡ W.misused world.old }
{
    let mut changed = env.copy()?;
    put_paths(alloc, world, &mut changed, layers.as_slice(), when)?;
    *env = changed;
    Ok(())
}
