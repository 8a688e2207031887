// Where the files of a buildpack's build stand.
ghost use Rattle.std.specs.Prelude.{◌≡◌, ◌≤◌, IfOk, IsTrue, false, length};
ghost use Rattle.cnb_world.specs.Path.{beside, is_path};
ghost use Rattle.cnb_world.specs.Tree.{is_root};
ghost use Rattle.cnb_build.specs.Places.{HasRoom, KeepsLimits, buildpack_plan_path, left_in, places_of};

use crate::frame::BuildFrame;
use cnb_env::{buildpack_folder, plan_name};
use cnb_toml::Key;
use cnb_world::{Memory, Path};
use layer_paths::layers_folder;
use std::alloc::Global;

/// The folder of a buildpack's version and its descriptor, the folder of its layers, its Buildpack Plan, and the
/// documents that its child may leave: `build.toml`, `launch.toml` and `store.toml`.
#[derive(Drop)]
pub(crate) struct Places {
    pub(crate) buildpack: Path,
    pub(crate) descriptor: Path,
    pub(crate) layers: Path,
    pub(crate) plan: Path,
    pub(crate) unmet: Path,
    pub(crate) launch: Path,
    pub(crate) store: Path,
}

// The documents that a buildpack's child may leave in its folder of layers.
#[derive(Drop)]
struct Left {
    unmet: Path,
    launch: Path,
    store: Path,
}

fn left_in(alloc: Global, layers: &Path) -> Result<Left, Memory>
    requires { length layers.now ≤ 4352 }
    ensures { IfOk result (λ left. left ≡ left_in layers.now) }
{
    Ok(Left {
        unmet: layers.below(alloc, "build.toml")?,
        launch: layers.below(alloc, "launch.toml")?,
        store: layers.below(alloc, "store.toml")?,
    })
}

#[tactic(auto, using(crate::proofs::PlaceLemmas::beside_plan, crate::proofs::PlaceLemmas::no_root, cnb_world::proofs::Lengths::length_joined))]
fn buildpack_plan_path(alloc: Global, frame: &BuildFrame, key: &Key) -> Result<Path, Memory>
    requires { KeepsLimits frame.now }
    ensures path { IfOk result (λ path. path ≡ buildpack_plan_path frame.now key.now) }
    ensures beside { IfOk result (λ path. IsTrue (is_path (beside path))) }
    ensures not_root { IfOk result (λ path. is_root path ≡ false) }
{
    let name = plan_name(alloc, key)?;
    let folder = frame.work.below(alloc, "plans")?;
    folder.below(alloc, name.as_str())
}

/// The places of a buildpack.
pub(crate) fn places_of(alloc: Global, frame: &BuildFrame, key: &Key) -> Result<Places, Memory>
    requires { KeepsLimits frame.now }
    ensures places { IfOk result (λ places. places ≡ places_of frame.now key.now) }
    ensures room { IfOk result HasRoom }
{
    let buildpack = buildpack_folder(alloc, &frame.buildpacks, key)?;
    let descriptor = buildpack.below(alloc, "buildpack.toml")?;
    let layers = layers_folder(alloc, &frame.layers, &key.id)?;
    let plan = buildpack_plan_path(alloc, frame, key)?;
    let left = left_in(alloc, &layers)?;
    Ok(Places {
        buildpack,
        descriptor,
        layers,
        plan,
        unmet: left.unmet,
        launch: left.launch,
        store: left.store,
    })
}
