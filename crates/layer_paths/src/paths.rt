// Where the layers of a buildpack and their documents stand.
ghost use Rattle.std.specs.Prelude.{◌≡◌, ◌≤◌, IfOk, length};
ghost use Rattle.cnb_world.specs.Path.{joined};
ghost use Rattle.layer_paths.specs.Paths.{layer_document, layers_folder};

use cnb_toml::{BpId, LayerName};
use cnb_world::{Memory, Path};
use std::alloc::Global;

/// The folder of a buildpack's layers (buildpack.md, "Layers Directory").
#[tactic(auto, using(cnb_world::proofs::Lengths::length_joined, cnb_world::proofs::Lengths::part_within))]
pub fn layers_folder(alloc: Global, layers: &Path, id: &BpId) -> Result<Path, Memory>
    requires { length layers.now ≤ 4096 }
    ensures path { IfOk result (λ path. path ≡ layers_folder layers.now id.now) }
    ensures short { IfOk result (λ path. length path ≤ 4352) }
{
    let name = id.folder(alloc)?;
    let path = layers.below(alloc, name.as_str())?;
    Ok(path)
}

/// The folder of a layer's contents, in the folder of its buildpack's layers.
#[tactic(auto, using(cnb_world::proofs::Lengths::length_joined, cnb_world::proofs::Lengths::part_within))]
pub fn contents_path(alloc: Global, folder: &Path, layer: &LayerName) -> Result<Path, Memory>
    requires { length folder.now ≤ 4352 }
    ensures path { IfOk result (λ path. path ≡ joined folder.now layer.now) }
    ensures short { IfOk result (λ path. length path ≤ 8192) }
{
    let path = folder.below(alloc, layer.as_str())?;
    Ok(path)
}

/// The document of a layer (buildpack.md, "Layer Content Metadata (TOML)"), in the folder of its buildpack's layers.
#[tactic(auto, using(crate::proofs::DocumentLemmas::document_is_part))]
pub fn layer_document(alloc: Global, folder: &Path, layer: &LayerName) -> Result<Path, Memory>
    requires { length folder.now ≤ 4352 }
    ensures { IfOk result (λ path. path ≡ layer_document folder.now layer.now) }
{
    let mut name = String::from_str(alloc, layer.as_str())?;
    name.push_str(".toml")?;
    folder.below(alloc, name.as_str())
}
