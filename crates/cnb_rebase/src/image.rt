// An image on another run image.
ghost use Rattle.std.specs.Prelude.{◌≡◌, ◌≤◌, ◌++◌, IfErr, IfOk, Ok, OnOk, length, map};
ghost use Rattle.steps.specs.Causes.{IsAnswer, IsGivenCause};
ghost use Rattle.steps.specs.Results.{and_then};
ghost use Rattle.image_docs.specs.Row.{is_run};
ghost use Rattle.image_files.specs.RunPart.{run_row};
ghost use Rattle.cnb_rebase.specs.Rebased.{last_run, on_run, rebased, rows_above, run_count, same_target, same_top};
ghost use Rattle.cnb_rebase.specs.Rebased.{target_text};
ghost use Rattle.cnb_rebase.specs.Refusals.{cause_of};

use crate::refusal::RebaseFault;
use cnb_toml::ImageName;
use cnb_world::{List, Memory, Text};
use image_docs::{Base, ImageDoc, Row, RunDoc};
use image_files::{base_of, image_env, push_run_rows};
use std::alloc::Global;
use tree_canon::Digest;

fn is_run(row: &Row) -> bool
    ensures { result ≡ is_run row.now }
{
    row.role.as_str() == "run"
}

/// How many rows of its run image an image begins with.
pub(crate) fn run_count(rows: &[Row]) -> usize
    ensures count { result ≡ run_count rows.now }
    ensures within { result ≤ length rows.now }
{
    let mut count = 0usize;
    for row in rows {
        if !is_run(row) {
            return count;
        }
        count += 1;
    }
    count
}

// The tree of the last row of the run image; this one where there is none.
fn last_run(other: Digest, rows: &[Row]) -> Digest
    ensures { result ≡ last_run other rows.now }
{
    let mut last = other;
    for row in rows {
        if !is_run(row) {
            return last;
        }
        last = row.digest;
    }
    last
}

// Refuses an image whose note of its topmost run row is of another one.
fn check_top(image: &ImageDoc) -> Result<(), RebaseFault>
    ensures { result ≡ same_top image.now }
{
    let recorded = image.base.top;
    let found = last_run(recorded, image.rows.as_slice());
    if recorded.same(&found) {
        Ok(())
    } else {
        Err(RebaseFault::TopDiffers { recorded, found })
    }
}

fn target_text(alloc: Global, os: &Text, arch: &Text) -> Result<Text, Memory>
    ensures { IfOk result (λ text. text ≡ target_text os.now arch.now) }
{
    let mut text = String::from_str(alloc, os.as_str())?;
    text.push_str("/")?;
    text.push_str(arch.as_str())?;
    Ok(Text::from_string(text))
}

// Refuses a run image for another target.
fn check_target(alloc: Global, base: &Base, run: &RunDoc) -> Result<(), RebaseFault>
    ensures answer { IsAnswer cause_of result (same_target base.now run.now) }
    ensures cause { IfErr result (λ fault. IsGivenCause (cause_of fault)) }
{
    if base.os.as_str() == run.os.as_str() && base.arch.as_str() == run.arch.as_str() {
        return Ok(());
    }
    let old = target_text(alloc, &base.os, &base.arch)?;
    let new = target_text(alloc, &run.os, &run.arch)?;
    Err(RebaseFault::TargetDiffers { old, new })
}

fn push_rows(alloc: Global, rows: &mut List<Row>, more: &[Row]) -> Result<(), Memory>
    ensures { OnOk result (rows.new ≡ rows.old ++ more.now) }
{
    for row in more {
        let place = row.place.copy(alloc)?;
        let by = row.by.copy(alloc)?;
        rows.push(Row {
            role: row.role,
            place,
            digest: row.digest,
            by,
        })?;
    }
    Ok(())
}

// The rows of the run image of this name, and above them those of an image that aren't of its run image.
fn rows_on(
    alloc: Global,
    name: &ImageName,
    run: &[Digest],
    old: &[Row],
) -> Result<List<Row>, Memory>
    ensures { IfOk result (λ rows. rows ≡ map (run_row name.now) run.now ++ rows_above old.now) }
{
    let mut rows = List::new(alloc);
    push_run_rows(alloc, &mut rows, name, run)?;
    push_rows(alloc, &mut rows, &old[run_count(old)..])?;
    Ok(rows)
}

// Gives an image the rows, the environment and the note of another run image.
fn put_on(alloc: Global, image: &mut ImageDoc, name: &ImageName, run: &RunDoc) -> Result<(), Memory>
    ensures { OnOk result (image.new ≡ on_run image.old name.now run.now) }
{
    image.base = base_of(alloc, name, run, image.base.top)?;
    image.rows = rows_on(alloc, name, run.rows.as_slice(), image.rows.as_slice())?;
    image.env = image_env(alloc, &run.env)?;
    Ok(())
}

/// Puts an image on another run image of the same target; refused where the image isn't what its note says. After a
/// refusal for want of memory it has a part of what it was to have.
pub(crate) fn rebased(
    alloc: Global,
    image: &mut ImageDoc,
    name: &ImageName,
    run: &RunDoc,
) -> Result<(), RebaseFault>
    ensures answer { IsAnswer cause_of (and_then result (λ done. Ok image.new)) (rebased image.old name.now run.now) }
    ensures cause { IfErr result (λ fault. IsGivenCause (cause_of fault)) }
{
    check_top(image)?;
    check_target(alloc, &image.base, run)?;
    put_on(alloc, image, name, run)?;
    Ok(())
}
