// Files that must be there.
ghost use Rattle.std.specs.Prelude.{◌≤◌, ℕ, IfErr, IfOk, IfSome, Ok, length};
ghost use Rattle.std.specs.Option.{option_map};
ghost use Rattle.cnb_world.specs.Calls.{MayMisuse};
ghost use Rattle.doc_files.specs.Faults.{read_cause};
ghost use Rattle.doc_files.specs.Reading.{BlamesOnly};
ghost use Rattle.run_docs.specs.Group.{group_in};
ghost use Rattle.run_docs.specs.Plan.{plan_in};
ghost use Rattle.steps.specs.Causes.{CountsFiles, IsAnswer, IsGivenCause};
ghost use Rattle.steps.specs.Outside.{seen};
ghost use Rattle.steps.specs.Reading.{LeavesUnchanged};
ghost use Rattle.cnb_record.specs.Checks.{known_apis, reads_group};
ghost use Rattle.cnb_record.specs.Reading.{is_fit_file, needed, needed_at, record_at};
ghost use Rattle.cnb_record.specs.Refusals.{cause_of};

use crate::refusal::CheckRefusal;
use cnb_toml::DocFault;
use cnb_world::{Bytes, LimitKind, Path, World};
use doc_files::{ReadFault, read_at, read_document, read_limited};
use run_docs::{GroupDoc, PlanDoc, foreign_among};
use std::alloc::Global;

/// The limit of a record's bytes.
const LONGEST_RECORD: u64 = 16_777_216;

// The bytes of a record that was found.
fn record_of(alloc: Global, path: &Path, found: Option<Bytes>) -> Result<Bytes, ReadFault>
    requires { IfSome found (λ bytes. length bytes ≤ 16777216) }
    ensures reads { IsAnswer read_cause result (needed Ok path.now found) }
    ensures blames { IfErr result (BlamesOnly path.now) }
    ensures within { IfOk result (λ bytes. length bytes ≤ 16777216) }
    ensures files { (n : ℕ) → CountsFiles read_cause result n n }
{
    match found {
        Some(bytes) => Ok(bytes),
        None => Err(ReadFault::Document(path.copy(alloc)?, DocFault::Absent)),
    }
}

/// The bytes of the record at a path.
pub(crate) fn read_record<W: World>(
    alloc: Global,
    world: &mut W,
    path: &Path,
) -> Result<Bytes, ReadFault>
    ensures reads { IfSome (W.tree world.old) (λ files. IsAnswer read_cause result (record_at path.now files)) }
    ensures within { IfOk result (λ bytes. length bytes ≤ 16777216) }
    ensures blames { IfErr result (BlamesOnly path.now) }
    ensures leaves { LeavesUnchanged read_cause result (seen W.World world.old) (seen W.World world.new) }
    ensures misused { MayMisuse (option_map (is_fit_file path.now) (W.tree world.old))
        (W.misused world.old) (W.misused world.new) }
{
    let found = read_limited(alloc, world, path, LONGEST_RECORD, LimitKind::Record)?;
    let bytes = record_of(alloc, path, found)?;
    Ok(bytes)
}

// The group that a document is.
fn group_of(alloc: Global, path: &Path, found: Option<Bytes>) -> Result<GroupDoc, ReadFault>
    ensures reads { IsAnswer read_cause result (needed group_in path.now found) }
    ensures blames { IfErr result (BlamesOnly path.now) }
    ensures files { (n : ℕ) → CountsFiles read_cause result n n }
{
    match found {
        Some(bytes) => {
            let group = read_at(alloc, path, run_docs::read_group(alloc, bytes.as_slice()))?;
            Ok(group)
        }
        None => Err(ReadFault::Document(path.copy(alloc)?, DocFault::Absent)),
    }
}

fn read_group_at<W: World>(alloc: Global, world: &mut W, path: &Path) -> Result<GroupDoc, ReadFault>
    ensures reads { IfSome (W.tree world.old) (λ files.
        IsAnswer read_cause result (needed_at group_in path.now files)) }
    ensures blames { IfErr result (BlamesOnly path.now) }
    ensures leaves { LeavesUnchanged read_cause result (seen W.World world.old) (seen W.World world.new) }
    ensures misused { MayMisuse (option_map (is_fit_file path.now) (W.tree world.old))
        (W.misused world.old) (W.misused world.new) }
{
    let found = read_document(alloc, world, path)?;
    let group = group_of(alloc, path, found)?;
    Ok(group)
}

// Refuses a group that has a buildpack of another Buildpack API.
fn check_apis(alloc: Global, group: &GroupDoc) -> Result<(), CheckRefusal>
    ensures answer { IsAnswer cause_of result (known_apis group.now) }
    ensures cause { IfErr result (λ refusal. IsGivenCause (cause_of refusal)) }
{
    match foreign_among(group.as_slice()) {
        Some(row) => Err(CheckRefusal::BuildpackApi(row.api.copy(alloc)?)),
        None => Ok(()),
    }
}

/// The group of the document at a path.
pub(crate) fn read_group<W: World>(
    alloc: Global,
    world: &mut W,
    path: &Path,
) -> Result<GroupDoc, CheckRefusal>
    ensures step { reads_group path.now (seen W.World world.old) result (seen W.World world.new) }
{
    let group = read_group_at(alloc, world, path)?;
    check_apis(alloc, &group)?;
    Ok(group)
}

// The plan that a document is.
fn plan_of(alloc: Global, path: &Path, found: Option<Bytes>) -> Result<PlanDoc, ReadFault>
    ensures reads { IsAnswer read_cause result (needed plan_in path.now found) }
    ensures blames { IfErr result (BlamesOnly path.now) }
    ensures files { (n : ℕ) → CountsFiles read_cause result n n }
{
    match found {
        Some(bytes) => {
            let plan = read_at(alloc, path, run_docs::read_plan(alloc, bytes.as_slice()))?;
            Ok(plan)
        }
        None => Err(ReadFault::Document(path.copy(alloc)?, DocFault::Absent)),
    }
}

/// The plan of the document at a path.
pub(crate) fn read_plan<W: World>(
    alloc: Global,
    world: &mut W,
    path: &Path,
) -> Result<PlanDoc, ReadFault>
    ensures reads { IfSome (W.tree world.old) (λ files.
        IsAnswer read_cause result (needed_at plan_in path.now files)) }
    ensures blames { IfErr result (BlamesOnly path.now) }
    ensures leaves { LeavesUnchanged read_cause result (seen W.World world.old) (seen W.World world.new) }
    ensures misused { MayMisuse (option_map (is_fit_file path.now) (W.tree world.old))
        (W.misused world.old) (W.misused world.new) }
{
    let found = read_document(alloc, world, path)?;
    let plan = plan_of(alloc, path, found)?;
    Ok(plan)
}
