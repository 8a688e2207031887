// The command `restore`.
ghost use Rattle.std.specs.Prelude.{◌≤◌, ◌<◌, ◌^◌, IfErr, length};
ghost use Rattle.cnb_words.specs.Restore.{KeepsLimits};
ghost use Rattle.shelf_set.specs.Caches.{caches_seen, world_and_caches};
ghost use Rattle.steps.specs.Causes.{IsAnswer, IsGivenCause, Only};
ghost use Rattle.steps.specs.Outside.{seen};
ghost use Rattle.steps.specs.Steps.{reads};
ghost use Rattle.cnb_restore.specs.Commands.{analyzed_at, group_at, group_document, needed, refusal_cause};
ghost use Rattle.cnb_restore.specs.Commands.{restores_analyzed, restores_command, served};
ghost use Rattle.image_files.specs.Documents.{is_fit_document};
ghost use Rattle.image_files.specs.Target.{analyzed_document};
ghost use Rattle.cnb_restore.specs.Faults.{cause_of};

use crate::fault::RestoreFault;
use crate::paths::work_document;
use crate::refusal::RestoreRefusal;
use crate::report::restored_text;
use crate::restoring::restore;
use cnb_toml::DocFault;
use cnb_words::RestoreWords;
use cnb_world::{Path, Shelf, Text, World};
use image_docs::Analyzed;
use image_files::find_document;
use run_docs::{GroupDoc, GroupRow, GroupTable, foreign_among};
use shelf_set::Caches;
use std::alloc::Global;

// A document that must be there.
fn needed<T: Drop>(alloc: Global, path: &Path, found: Option<T>) -> Result<T, RestoreFault>
    ensures answer { IsAnswer cause_of result (needed path.now found) }
    ensures cause { IfErr result (λ fault. IsGivenCause (cause_of fault)) }
{
    match found {
        Some(value) => Ok(value),
        None => Err(RestoreFault::Document(path.copy(alloc)?, DocFault::Absent)),
    }
}

// What was analyzed.
fn read_analyzed<W: World>(
    alloc: Global,
    world: &mut W,
    work: &Path,
) -> Result<Analyzed, RestoreFault>
    requires { length work.now ≤ 4096 }
    ensures step { reads cause_of (Only (analyzed_document work.now))
        (is_fit_document (analyzed_document work.now)) (analyzed_at (analyzed_document work.now)) (seen W.World world.old) result (seen W.World world.new) }
{
    let path = work_document(alloc, work, "analyzed.toml")?;
    let found = find_document::<W, Analyzed>(alloc, world, &path)?;
    needed(alloc, &path, found)
}

// The chosen group.
fn read_group<W: World>(alloc: Global, world: &mut W, work: &Path) -> Result<GroupDoc, RestoreFault>
    requires { length work.now ≤ 4096 }
    ensures step { reads cause_of (Only (group_document work.now))
        (is_fit_document (group_document work.now)) (group_at (group_document work.now))
        (seen W.World world.old) result (seen W.World world.new) }
{
    let path = work_document(alloc, work, "group.toml")?;
    let found = find_document::<W, GroupTable>(alloc, world, &path)?;
    needed(alloc, &path, found)
}

// Whether the Buildpack API of each buildpack is served.
fn served(alloc: Global, group: &[GroupRow]) -> Result<(), RestoreRefusal>
    ensures answer { IsAnswer refusal_cause result (served group.now) }
    ensures cause { IfErr result (λ refusal. IsGivenCause (refusal_cause refusal)) }
{
    match foreign_among(group) {
        Some(row) => Err(RestoreRefusal::BuildpackApi(row.api.copy(alloc)?)),
        None => Ok(()),
    }
}

// Restores the layers of a group, where each of its buildpacks is served, and gives the text to be printed.
fn restore_analyzed<W: World>(
    alloc: Global,
    options: &RestoreWords,
    world: &mut W,
    caches: &mut Caches,
    analyzed: &Analyzed,
    group: &GroupDoc,
) -> Result<Text, RestoreRefusal>
    requires limits { KeepsLimits options.now }
    requires few { length caches.old.shelves.items < 2 ^ 32 }
    ensures steps { restores_analyzed options.now analyzed.now group.now
        (world_and_caches (seen W.World world.old) (caches_seen ⟦<dyn Shelf as Shelf>⟧ caches.old)) result
        (world_and_caches (seen W.World world.new) (caches_seen ⟦<dyn Shelf as Shelf>⟧ caches.new)) }
{
    served(alloc, group.as_slice())?;
    let restored = restore(
        alloc,
        world,
        caches,
        &options.store,
        analyzed,
        group,
        &options.layers,
    )?;
    let text = restored_text(alloc, &restored)?;
    Ok(text)
}

/// Restores what the buildpacks of the chosen group left the last time, and gives the text to be printed (platform.md,
/// "restorer").
pub fn restore_command<W: World>(
    alloc: Global,
    options: &RestoreWords,
    world: &mut W,
    caches: &mut Caches,
) -> Result<Text, RestoreRefusal>
    requires limits { KeepsLimits options.now }
    requires few { length caches.old.shelves.items < 2 ^ 32 }
    ensures steps { restores_command options.now
        (world_and_caches (seen W.World world.old) (caches_seen ⟦<dyn Shelf as Shelf>⟧ caches.old)) result
        (world_and_caches (seen W.World world.new) (caches_seen ⟦<dyn Shelf as Shelf>⟧ caches.new)) }
{
    let analyzed = read_analyzed(alloc, world, &options.work)?;
    let group = read_group(alloc, world, &options.work)?;
    restore_analyzed(alloc, options, world, caches, &analyzed, &group)
}
