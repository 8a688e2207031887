// Where documents and layers stand.
ghost use Rattle.std.specs.Prelude.{◌≡◌, ◌≤◌, ◌<◌, ◌+◌, IfOk, IsTrue, length};
ghost use Rattle.cnb_world.specs.Path.{beside, is_part, joined};
ghost use Rattle.image_files.specs.Paths.{document_name};

use cnb_world::{Memory, Path, Text};
use std::alloc::Global;

/// The name of a document, behind that of an image or a layer.
#[tactic(auto, using(image_files::proofs::PathLemmas::document_name_is_part, image_files::proofs::PathLemmas::document_beside_is_part))]
pub(crate) fn document_name(alloc: Global, name: &str) -> Result<Text, Memory>
    requires part { IsTrue (is_part name.now) }
    requires short { length name.now ≤ 200 }
    ensures name { IfOk result (λ document. document ≡ document_name name.now) }
    ensures part { IsTrue (is_part (document_name name.now)) }
    ensures beside { IsTrue (is_part (beside (document_name name.now))) }
    ensures long { 1 < length (document_name name.now) }
    ensures length { length (document_name name.now) ≤ 205 }
{
    let mut text = String::from_str(alloc, name)?;
    text.push_str(".toml")?;
    Ok(Text::from_string(text))
}

/// A document of the work folder.
#[tactic(auto, using(cnb_world::proofs::Lengths::length_joined, cnb_world::proofs::Lengths::part_within))]
pub(crate) fn work_document(alloc: Global, work: &Path, name: &str) -> Result<Path, Memory>
    requires short { length work.now ≤ 4096 }
    requires part { IsTrue (is_part name.now) }
    ensures { IfOk result (λ path. path ≡ joined work.now name.now) }
{
    let path = work.below(alloc, name)?;
    Ok(path)
}
