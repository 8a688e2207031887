// The descriptor of a buildpack that is built.
ghost use Rattle.std.specs.Prelude.{IfErr};
ghost use Rattle.steps.specs.Causes.{IsAnswer, IsGivenCause};
ghost use Rattle.steps.specs.Outside.{seen};
ghost use Rattle.cnb_build.specs.Descriptor.{clears_in, clears_of, reads_descriptor};
ghost use Rattle.cnb_build.specs.Refusals.{cause_of};

use crate::fault::BuildFault;
use crate::reading::{read_document, value_at};
use bp_docs::{Body, read_buildpack};
use cnb_toml::DocFault;
use cnb_world::{Bytes, Path, Text, World};
use std::alloc::Global;

fn clears_of(alloc: Global, path: &Path, body: Body) -> Result<bool, BuildFault>
    ensures answer { IsAnswer cause_of result (clears_of path.now body) }
    ensures cause { IfErr result (λ fault. IsGivenCause (cause_of fault)) }
{
    match body {
        Body::Component { clear_env, .. } => Ok(clear_env),
        Body::Composite(_) => {
            let key = Text::of(alloc, "order")?;
            Err(BuildFault::Document(path.copy(alloc)?, DocFault::Wrong(key)))
        }
        Body::Foreign(api) => Err(BuildFault::Api(api)),
    }
}

fn clears_in(alloc: Global, path: &Path, found: Option<Bytes>) -> Result<bool, BuildFault>
    ensures answer { IsAnswer cause_of result (clears_in path.now found) }
    ensures cause { IfErr result (λ fault. IsGivenCause (cause_of fault)) }
{
    match found {
        Some(bytes) => {
            let descriptor = value_at(alloc, path, read_buildpack(alloc, bytes.as_slice()))?;
            clears_of(alloc, path, descriptor.body)
        }
        None => Err(BuildFault::Document(path.copy(alloc)?, DocFault::Absent)),
    }
}

/// Reads the descriptor of a component (buildpack.md, "buildpack.toml (TOML)"): whether it clears the platform's
/// variables.
pub(crate) fn read_descriptor<W: World>(
    alloc: Global,
    world: &mut W,
    path: &Path,
) -> Result<bool, BuildFault>
    ensures step { reads_descriptor path.now (seen W.World world.old) result (seen W.World world.new) }
{
    let found = read_document(alloc, world, path)?;
    clears_in(alloc, path, found)
}
