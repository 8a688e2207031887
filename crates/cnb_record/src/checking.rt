// The command `check`.
ghost use Rattle.std.specs.Prelude.{◌≡◌, ◌≤◌, IfOk, IsOk, length};
ghost use Rattle.cnb_detect.specs.Documents.{group_document, plan_document};
ghost use Rattle.cnb_words.specs.Check.{KeepsLimits};
ghost use Rattle.order_expand.specs.Check.{checked};
ghost use Rattle.steps.specs.Outside.{seen};
ghost use Rattle.cnb_record.specs.CheckOutcome.{ComesToCheck};
ghost use Rattle.cnb_record.specs.Checks.{IsMatched, checks, compares, compares_group, compares_plan, follows, proves};

use crate::ordering::{Ordered, read_ordered};
use crate::reading::{read_group, read_plan, read_record};
use crate::refusal::CheckRefusal;
use crate::report::checked_text;
use crate::same::{same_group, same_plan};
use cnb_words::CheckWords;
use cnb_world::{Memory, Path, Text, World};
use detect_record::{Checked, check_record};
use run_docs::{GroupDoc, PlanDoc};
use std::alloc::Global;

// Reads the record, and follows it.
fn follow<W: World>(
    alloc: Global,
    world: &mut W,
    path: &Path,
    ordered: &Ordered,
) -> Result<Checked, CheckRefusal>
    requires { IsOk (checked ordered.now.catalog ordered.now.order) }
    ensures step { follows path.now ordered.now (seen W.World world.old) result (seen W.World world.new) }
{
    let bytes = read_record(alloc, world, path)?;
    let proved = check_record(alloc, &ordered.order, &ordered.catalog, bytes.as_slice())?;
    Ok(proved)
}

// What the record proves for the order and the buildpacks.
fn prove<W: World>(
    alloc: Global,
    options: &CheckWords,
    world: &mut W,
) -> Result<Checked, CheckRefusal>
    requires { KeepsLimits options.now }
    ensures step { proves options.now (seen W.World world.old) result (seen W.World world.new) }
{
    let ordered = read_ordered(alloc, world, &options.order, &options.buildpacks)?;
    follow(alloc, world, &options.proof_path, &ordered)
}

#[tactic(auto, using(cnb_world::proofs::Lengths::length_joined))]
fn group_document(alloc: Global, work: &Path) -> Result<Path, Memory>
    requires { length work.now ≤ 4096 }
    ensures { IfOk result (λ path. path ≡ group_document work.now) }
{
    let path = work.below(alloc, "group.toml")?;
    Ok(path)
}

#[tactic(auto, using(cnb_world::proofs::Lengths::length_joined))]
fn plan_document(alloc: Global, work: &Path) -> Result<Path, Memory>
    requires { length work.now ≤ 4096 }
    ensures { IfOk result (λ path. path ≡ plan_document work.now) }
{
    let path = work.below(alloc, "plan.toml")?;
    Ok(path)
}

fn match_group(path: Path, found: &GroupDoc, proved: &GroupDoc) -> Result<(), CheckRefusal>
    ensures { IsMatched path proved.now found.now result }
{
    if same_group(found, proved) {
        Ok(())
    } else {
        Err(CheckRefusal::RecordDiffers(path))
    }
}

fn match_plan(path: Path, found: &PlanDoc, proved: &PlanDoc) -> Result<(), CheckRefusal>
    ensures { IsMatched path proved.now found.now result }
{
    if same_plan(found, proved) {
        Ok(())
    } else {
        Err(CheckRefusal::RecordDiffers(path))
    }
}

// Refuses a group of the work folder that isn't the one that is proved.
fn compare_group<W: World>(
    alloc: Global,
    world: &mut W,
    work: &Path,
    proved: &GroupDoc,
) -> Result<(), CheckRefusal>
    requires { length work.now ≤ 4096 }
    ensures step { compares_group (group_document work.now) proved.now
        (seen W.World world.old) result (seen W.World world.new) }
{
    let path = group_document(alloc, work)?;
    let found = read_group(alloc, world, &path)?;
    match_group(path, &found, proved)
}

// Refuses a plan of the work folder that isn't the one that is proved.
fn compare_plan<W: World>(
    alloc: Global,
    world: &mut W,
    work: &Path,
    proved: &PlanDoc,
) -> Result<(), CheckRefusal>
    requires { length work.now ≤ 4096 }
    ensures step { compares_plan (plan_document work.now) proved.now
        (seen W.World world.old) result (seen W.World world.new) }
{
    let path = plan_document(alloc, work)?;
    let found = read_plan(alloc, world, &path)?;
    match_plan(path, &found, proved)
}

// Compares both documents of the work folder, and makes the text.
fn compare<W: World>(
    alloc: Global,
    world: &mut W,
    work: &Path,
    proved: &Checked,
) -> Result<Text, CheckRefusal>
    requires { length work.now ≤ 4096 }
    ensures step { compares work.now proved.now (seen W.World world.old) result (seen W.World world.new) }
{
    compare_group(alloc, world, work, &proved.group)?;
    compare_plan(alloc, world, work, &proved.plan)?;
    let text = checked_text(alloc, proved.place, proved.trial)?;
    Ok(text)
}

/// Checks that a record proves the group and the plan of a work folder for this order and these buildpacks, and gives
/// the text to be printed. No child is asked, and nothing is written.
pub fn check<W: World>(
    alloc: Global,
    options: &CheckWords,
    world: &mut W,
) -> Result<Text, CheckRefusal>
    requires limits { KeepsLimits options.now }
    // It does its steps in their order.
    ensures steps { checks options.now (seen W.World world.old) result (seen W.World world.new) }
    // So by the files it comes to the line of the record's trial, or to the first refusal, and leaves all as it was.
    ensures outcome { ComesToCheck options.now (seen W.World world.old) result (seen W.World world.new) }
{
    let proved = prove(alloc, options, world)?;
    compare(alloc, world, &options.work, &proved)
}
