// Reading documents.
ghost use Rattle.std.specs.Prelude.{IfErr};
ghost use Rattle.steps.specs.Causes.{IsAnswer, IsGivenCause};
ghost use Rattle.steps.specs.Outside.{seen};
ghost use Rattle.cnb_build.specs.Reading.{reads_document, value_at};
ghost use Rattle.cnb_build.specs.Refusals.{cause_of};

use crate::fault::BuildFault;
use cnb_toml::DocFault;
use cnb_world::{Bytes, Path, World};
use std::alloc::Global;

/// The bytes of the document at a path, where one is there.
pub(crate) fn read_document<W: World>(
    alloc: Global,
    world: &mut W,
    path: &Path,
) -> Result<Option<Bytes>, BuildFault>
    ensures step { reads_document path.now (seen W.World world.old) result (seen W.World world.new) }
{
    let found = doc_files::read_document(alloc, world, path)?;
    Ok(found)
}

/// What the reader of a document answered, for the document at a path.
pub(crate) fn value_at<T: Drop>(
    alloc: Global,
    path: &Path,
    answer: Result<T, DocFault>,
) -> Result<T, BuildFault>
    ensures answer { IsAnswer cause_of result (value_at path.now answer) }
    ensures cause { IfErr result (λ fault. IsGivenCause (cause_of fault)) }
{
    let value = doc_files::read_at(alloc, path, answer)?;
    Ok(value)
}
