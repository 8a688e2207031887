// What a build closes of the plan.
ghost use Rattle.std.specs.Prelude.{IfOk, IsTrue};
ghost use Rattle.run_docs.specs.Build.{build_in};
ghost use Rattle.run_docs.specs.Plan.{is_plan_doc};
ghost use Rattle.steps.specs.Outside.{seen};
ghost use Rattle.cnb_build.specs.Builds.{closes};
ghost use Rattle.cnb_build.specs.Reading.{reads_as};

use crate::fault::BuildFault;
use crate::places::Places;
use crate::plan::pending_after;
use crate::reading::{read_document, value_at};
use cnb_world::{Path, World};
use doc_files::bytes_of;
use run_docs::{BuildToml, GroupRow, PlanDoc, read_build};
use std::alloc::Global;

fn read_unmet<W: World>(alloc: Global, world: &mut W, path: &Path) -> Result<BuildToml, BuildFault>
    ensures step { reads_as build_in path.now (seen W.World world.old) result (seen W.World world.new) }
{
    let found = read_document(alloc, world, path)?;
    value_at(alloc, path, read_build(alloc, bytes_of(&found)))
}

/// Closes the entries of a buildpack's plan, but for what `build.toml` leaves unmet: the entries that are still
/// pending.
pub(crate) fn close<W: World>(
    alloc: Global,
    world: &mut W,
    row: &GroupRow,
    places: &Places,
    pending: PlanDoc,
) -> Result<PlanDoc, BuildFault>
    requires { IsTrue (is_plan_doc pending) }
    ensures step { closes row.now places.now pending (seen W.World world.old) result (seen W.World world.new) }
    ensures kept { IfOk result (λ kept. IsTrue (is_plan_doc kept)) }
{
    let unmet = read_unmet(alloc, world, &places.unmet)?;
    pending_after(alloc, &row.key, &unmet, pending)
}
