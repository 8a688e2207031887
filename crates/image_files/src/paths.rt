// Where the documents of images stand.
ghost use Rattle.std.specs.Prelude.{◌≡◌, ◌≤◌, ◌<◌, IfOk, IsTrue, length};
ghost use Rattle.cnb_world.specs.Path.{beside, is_part, joined};
ghost use Rattle.image_files.specs.Paths.{document_name, image_path, images_folder, run_path, runs_folder};

use cnb_toml::ImageName;
use cnb_world::{Memory, Path, Text};
use std::alloc::Global;

/// The name of an image's document.
#[tactic(auto, using(crate::proofs::PathLemmas::image_name_fits, crate::proofs::PathLemmas::document_name_is_part, crate::proofs::PathLemmas::document_beside_is_part, crate::proofs::PathLemmas::document_length))]
pub(crate) fn document_name(alloc: Global, name: &ImageName) -> Result<Text, Memory>
    ensures name { IfOk result (λ document. document ≡ document_name name.now) }
    ensures part { IsTrue (is_part (document_name name.now)) }
    ensures beside { IsTrue (is_part (beside (document_name name.now))) }
    ensures long { 1 < length (document_name name.now) }
    ensures length { length (document_name name.now) ≤ 205 }
{
    let mut text = String::from_str(alloc, name.as_str())?;
    text.push_str(".toml")?;
    Ok(Text::from_string(text))
}

/// The folder of the images of a store.
#[tactic(auto, using(cnb_world::proofs::Lengths::length_joined))]
pub fn images_folder(alloc: Global, store: &Path) -> Result<Path, Memory>
    requires { length store.now ≤ 4096 }
    ensures path { IfOk result (λ path. path ≡ images_folder store.now) }
    ensures short { IfOk result (λ path. length path ≤ 4352) }
{
    let path = store.below(alloc, "images")?;
    Ok(path)
}

/// The folder of the run images of a store.
#[tactic(auto, using(cnb_world::proofs::Lengths::length_joined))]
pub fn runs_folder(alloc: Global, store: &Path) -> Result<Path, Memory>
    requires { length store.now ≤ 4096 }
    ensures path { IfOk result (λ path. path ≡ runs_folder store.now) }
    ensures short { IfOk result (λ path. length path ≤ 4352) }
{
    let path = store.below(alloc, "runs")?;
    Ok(path)
}

#[tactic(auto, using(cnb_world::proofs::Lengths::length_joined))]
fn document_of(alloc: Global, folder: &Path, name: &ImageName) -> Result<Path, Memory>
    requires { length folder.now ≤ 4352 }
    ensures { IfOk result (λ path. path ≡ joined folder.now (document_name name.now)) }
{
    let document = document_name(alloc, name)?;
    let path = folder.below(alloc, document.as_str())?;
    Ok(path)
}

/// Where an image's document is.
pub fn image_path(alloc: Global, store: &Path, name: &ImageName) -> Result<Path, Memory>
    requires { length store.now ≤ 4096 }
    ensures { IfOk result (λ path. path ≡ image_path store.now name.now) }
{
    let folder = images_folder(alloc, store)?;
    let path = document_of(alloc, &folder, name)?;
    Ok(path)
}

/// Where a run image's document is.
pub fn run_path(alloc: Global, store: &Path, name: &ImageName) -> Result<Path, Memory>
    requires { length store.now ≤ 4096 }
    ensures { IfOk result (λ path. path ≡ run_path store.now name.now) }
{
    let folder = runs_folder(alloc, store)?;
    let path = document_of(alloc, &folder, name)?;
    Ok(path)
}
