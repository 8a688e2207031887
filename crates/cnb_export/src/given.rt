// What is exported.
ghost use Rattle.std.specs.Prelude.{◌≡◌, ◌≤◌, IfErr, IfOk, codes, length};
ghost use Rattle.cnb_words.specs.Export as words;
ghost use Rattle.image_docs.specs.Analyzed.{analyzed_in};
ghost use Rattle.run_docs.specs.Group.{group_in};
ghost use Rattle.steps.specs.Causes.{IsAnswer, IsGivenCause};
ghost use Rattle.steps.specs.Outside.{seen};
ghost use Rattle.cnb_layers.specs.Frame.{KeepsLimits};
ghost use Rattle.cnb_export.specs.Given.{needed_at, reads_given, reads_group, reads_needed, refusal_cause, served};
ghost use Rattle.cnb_layers.specs.Refusals.{cause_of};

use crate::refusal::ExportRefusal;
use cnb_layers::{ExportFault, ExportFrame, read_document, value_at};
use cnb_toml::DocFault;
use cnb_words::ExportWords;
use cnb_world::{Bytes, Path, World};
use image_docs::{Analyzed, read_analyzed};
use run_docs::{GroupDoc, foreign_among, read_group};
use std::alloc::Global;

/// What is exported, and from where.
#[derive(Drop)]
pub(crate) struct ExportGiven {
    pub(crate) frame: ExportFrame,
    pub(crate) group: GroupDoc,
    pub(crate) analyzed: Analyzed,
}

fn group_at(alloc: Global, path: &Path, found: Option<Bytes>) -> Result<GroupDoc, ExportFault>
    ensures answer { IsAnswer cause_of result (needed_at group_in path.now found) }
    ensures cause { IfErr result (λ fault. IsGivenCause (cause_of fault)) }
{
    match found {
        Some(bytes) => value_at(alloc, path, read_group(alloc, bytes.as_slice())),
        None => Err(ExportFault::Document(path.copy(alloc)?, DocFault::Absent)),
    }
}

fn analyzed_at(alloc: Global, path: &Path, found: Option<Bytes>) -> Result<Analyzed, ExportFault>
    ensures answer { IsAnswer cause_of result (needed_at analyzed_in path.now found) }
    ensures cause { IfErr result (λ fault. IsGivenCause (cause_of fault)) }
{
    match found {
        Some(bytes) => value_at(alloc, path, read_analyzed(alloc, bytes.as_slice())),
        None => Err(ExportFault::Document(path.copy(alloc)?, DocFault::Absent)),
    }
}

// The chosen group.
fn find_group<W: World>(alloc: Global, world: &mut W, work: &Path) -> Result<GroupDoc, ExportFault>
    requires { length work.now ≤ 4096 }
    ensures step { reads_needed group_in work.now (codes "group.toml") (seen W.World world.old) result
        (seen W.World world.new) }
{
    let path = work.below(alloc, "group.toml")?;
    let found = read_document(alloc, world, &path)?;
    group_at(alloc, &path, found)
}

// What was analyzed.
fn find_analyzed<W: World>(
    alloc: Global,
    world: &mut W,
    work: &Path,
) -> Result<Analyzed, ExportFault>
    requires { length work.now ≤ 4096 }
    ensures step { reads_needed analyzed_in work.now (codes "analyzed.toml") (seen W.World world.old) result
        (seen W.World world.new) }
{
    let path = work.below(alloc, "analyzed.toml")?;
    let found = read_document(alloc, world, &path)?;
    analyzed_at(alloc, &path, found)
}

// Whether the Buildpack API of each buildpack is served.
fn served(alloc: Global, group: &GroupDoc) -> Result<(), ExportRefusal>
    ensures answer { IsAnswer refusal_cause result (served group.now) }
    ensures cause { IfErr result (λ refusal. IsGivenCause (refusal_cause refusal)) }
{
    match foreign_among(group.as_slice()) {
        Some(row) => Err(ExportRefusal::BuildpackApi(row.api.copy(alloc)?)),
        None => Ok(()),
    }
}

fn find_served_group<W: World>(
    alloc: Global,
    world: &mut W,
    work: &Path,
) -> Result<GroupDoc, ExportRefusal>
    requires { length work.now ≤ 4096 }
    ensures step { reads_group work.now (seen W.World world.old) result (seen W.World world.new) }
{
    let group = find_group(alloc, world, work)?;
    served(alloc, &group)?;
    Ok(group)
}

/// Reads the chosen group and what was analyzed.
pub(crate) fn read_given<W: World>(
    alloc: Global,
    world: &mut W,
    options: &ExportWords,
) -> Result<ExportGiven, ExportRefusal>
    requires { words.KeepsLimits options.now }
    ensures step { reads_given options.now (seen W.World world.old) result (seen W.World world.new) }
    ensures limits { IfOk result (λ given. KeepsLimits given.frame) }
{
    let group = find_served_group(alloc, world, &options.work)?;
    let analyzed = find_analyzed(alloc, world, &options.work)?;
    let frame = ExportFrame::new(
        alloc,
        &options.store,
        &options.layers,
        &options.app,
        &options.launcher,
    )?;
    Ok(ExportGiven {
        frame,
        group,
        analyzed,
    })
}
