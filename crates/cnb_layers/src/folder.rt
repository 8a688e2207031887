// Where the contents of a layer stand.
ghost use Rattle.std.specs.Prelude.{◌≡◌, ◌≤◌, IfOk, IsTrue, false, length};
ghost use Rattle.cnb_world.specs.Path.{is_part, joined};
ghost use Rattle.cnb_world.specs.Tree.{is_root};

use cnb_toml::LayerName;
use cnb_world::{Memory, Path};
use layer_paths::contents_path;
use std::alloc::Global;

// What the type of a layer's name says of it.
fn named(layer: &LayerName)
    ensures { IsTrue (is_part layer.now) }
{
    let _name = layer.as_str();
}

/// The folder of a layer's contents, in the folder of its buildpack's layers. It isn't `/`.
pub fn contents_folder(alloc: Global, folder: &Path, layer: &LayerName) -> Result<Path, Memory>
    requires { length folder.now ≤ 4352 }
    ensures path { IfOk result (λ path. path ≡ joined folder.now layer.now) }
    ensures short { IfOk result (λ path. length path ≤ 8192) }
    ensures plain { IfOk result (λ path. is_root path ≡ false) }
{
    named(layer);
    let path = contents_path(alloc, folder, layer)?;
    Ok(path)
}
