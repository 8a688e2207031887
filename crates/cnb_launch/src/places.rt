// Places of an image under a root.
ghost use Rattle.std.specs.Prelude.{◌≡◌, ◌≤◌, ◌∷◌, IfOk, length};
ghost use Rattle.cnb_launch.specs.Places.{IsShortDir, dir_in, launch_doc_path, layers_folder, place_in};

use cnb_world::{Memory, Path, PathFault};
use std::alloc::Global;

// The path of a place.
#[tactic(auto, using(crate::proofs::PlaceLemmas::place_is_path))]
fn place_in(alloc: Global, root: &Path, place: &Path) -> Result<Path, Memory>
    requires root { length root.now ≤ 4096 }
    requires place { length place.now ≤ 4096 }
    ensures { IfOk result (λ path. path ≡ place_in root.now place.now) }
{
    if root.as_str() == "/" {
        return place.copy(alloc);
    }
    if place.as_str() == "/" {
        return root.copy(alloc);
    }
    let mut text = String::from_str(alloc, root.as_str())?;
    text.push_str(place.as_str())?;
    match Path::parse(alloc, text.as_str()) {
        Ok(path) => Ok(path),
        Err(PathFault::Memory) => Err(Memory),
        Err(PathFault::NotPath) => unreachable!(),
    }
}

/// The working folder of a process: the place that it names, else the application's.
pub(crate) fn dir_in(alloc: Global, root: &Path, dir: &Option<Path>) -> Result<Path, Memory>
    requires root { length root.now ≤ 4096 }
    requires dir { IsShortDir dir.now }
    ensures { IfOk result (λ path. path ≡ dir_in root.now dir.now) }
{
    match dir {
        Some(place) => place_in(alloc, root, place),
        None => root.below(alloc, "workspace"),
    }
}

/// The folder of all layers.
pub(crate) fn layers_folder(alloc: Global, root: &Path) -> Result<Path, Memory>
    requires { length root.now ≤ 4096 }
    ensures path { IfOk result (λ path. path ≡ layers_folder root.now) }
    ensures short { IfOk result (λ path. length path ≤ 4103) }
{
    root.below(alloc, "layers")
}

/// The document that says how the image is launched.
pub(crate) fn launch_doc_path(alloc: Global, root: &Path) -> Result<Path, Memory>
    requires { length root.now ≤ 4096 }
    ensures { IfOk result (λ path. path ≡ launch_doc_path root.now) }
{
    let layers = layers_folder(alloc, root)?;
    let config = layers.below(alloc, "config")?;
    let path = config.below(alloc, "metadata.toml")?;
    Ok(path)
}
