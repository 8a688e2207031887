// The documents of a choice.
ghost use Rattle.std.specs.Prelude.{◌≡◌, ◌≤◌, ℕ, List as Seq, IsTrue, length};
ghost use Rattle.run_docs.specs.Group.{is_group_doc};
ghost use Rattle.run_docs.specs.Plan.{is_plan_doc};
ghost use Rattle.steps.specs.Asking.{CountsSpawners};
ghost use Rattle.steps.specs.Causes.{CountsFiles};
ghost use Rattle.steps.specs.Outside.{seen};
ghost use Rattle.cnb_detect.specs.Documents.{writes_choice};
ghost use Rattle.cnb_detect.specs.Refusals.{cause_of};

use crate::refusal::DetectRefusal;
use cnb_world::{Path, World};
use doc_files::write_document;
use run_docs::{GroupDoc, PlanDoc, write_group, write_plan};
use std::alloc::Global;

/// Writes `group.toml` and then `plan.toml` (platform.md, "group.toml (TOML)", "plan.toml (TOML)").
pub fn write_choice<W: World>(
    alloc: Global,
    world: &mut W,
    work: &Path,
    group: &GroupDoc,
    plan: &PlanDoc,
) -> Result<(), DetectRefusal>
    requires group { IsTrue (is_group_doc group.now) }
    requires plan { IsTrue (is_plan_doc plan.now) }
    requires short { length work.now ≤ 4096 }
    ensures step { writes_choice work.now (record { group = group.now; plan = plan.now })
        (seen W.World world.old) result (seen W.World world.new) }
{
    let group_bytes = write_group(alloc, group)?;
    let plan_bytes = write_plan(alloc, plan)?;
    write_document::<W, DetectRefusal>(alloc, world, work, "group.toml", group_bytes.as_slice())?;
    write_document::<W, DetectRefusal>(alloc, world, work, "plan.toml", plan_bytes.as_slice())?;
    Ok(())
}
