// What becomes of a layer.
ghost use Rattle.std.specs.Prelude.{◌≡◌, ◌≤◌, Err, IfErr, Ok, length};
ghost use Rattle.std.specs.Option.{option_copied};
ghost use Rattle.steps.specs.Causes.{IsAnswer, IsGivenCause};
ghost use Rattle.steps.specs.Outside.{seen};
ghost use Rattle.cnb_layers.specs.declared.fault.ExportFault.TheVariants as fault;
ghost use Rattle.cnb_layers.specs.Refusals.{cause_of};
ghost use Rattle.cnb_layers.specs.Settling.{checks_reused, decision_of, digest_or, if_stored, is_equal};
ghost use Rattle.cnb_layers.specs.Settling.{looks_for_stored, reuses, row_of, settled_as, settles};

use crate::fault::ExportFault;
use crate::frame::BuildpackFrame;
use crate::layer::Contents;
use cnb_toml::{BpId, LayerName};
use cnb_world::{Path, World};
use image_docs::LayerRow;
use layer_flags::{ExportRow, Flags, export_row};
use std::alloc::Global;
use tree_canon::Digest;
use tree_store::{StoreFault, has};

/// A layer that goes into the image, where `reused` says whether the previous image has the same, or into caches, with
/// the digest of its contents.
#[derive(Clone, Copy)]
pub(crate) struct Settled {
    pub(crate) reused: Option<bool>,
    pub(crate) digest: Digest,
}

fn row_of<'a>(rows: &'a [LayerRow], id: &BpId, layer: &LayerName) -> Option<&'a LayerRow>
    ensures { option_copied result ≡ row_of rows.now id.now layer.now }
{
    for row in rows {
        if row.id == *id && row.layer == *layer {
            return Some(row);
        }
    }
    None
}

fn is_equal(digest: &Option<Digest>, before: Option<&LayerRow>) -> bool
    ensures { result ≡ is_equal digest.now (option_copied before.entry) }
{
    match (digest, before) {
        (Some(digest), Some(row)) => *digest == row.digest,
        (Some(_), None) => false,
        (None, _) => false,
    }
}

fn decision_of(flags: Flags, contents: &Contents, before: Option<&LayerRow>) -> ExportRow
    ensures { result ≡ decision_of flags contents.now (option_copied before.entry) }
{
    let equal = is_equal(&contents.digest, before);
    export_row(flags, contents.there, before.is_some(), equal)
}

fn digest_or(digest: &Option<Digest>, before: Option<&LayerRow>) -> Option<Digest>
    ensures { result ≡ digest_or digest.now (option_copied before.entry) }
{
    match (digest, before) {
        (Some(digest), _) => Some(*digest),
        (None, Some(row)) => Some(row.digest),
        (None, None) => None,
    }
}

fn settled_as(reused: Option<bool>, digest: Option<Digest>) -> Option<Settled>
    ensures { result ≡ settled_as reused digest }
{
    match digest {
        Some(digest) => Some(Settled { reused, digest }),
        None => None,
    }
}

fn if_stored(digest: &Digest, stored: bool) -> Result<(), ExportFault>
    ensures answer { IsAnswer cause_of result (if_stored digest.now stored) }
    ensures cause { IfErr result (λ fault. IsGivenCause (cause_of fault)) }
{
    if stored {
        Ok(())
    } else {
        Err(ExportFault::Store(StoreFault::NoTree(*digest)))
    }
}

fn look_for_stored<W: World>(
    alloc: Global,
    world: &mut W,
    store: &Path,
    digest: &Digest,
) -> Result<(), ExportFault>
    requires { length store.now ≤ 4096 }
    ensures step { looks_for_stored store.now digest.now (seen W.World world.old) result (seen W.World world.new) }
{
    let stored = has(alloc, world, store, digest)?;
    if_stored(digest, stored)?;
    Ok(())
}

// A tree that is reused without its contents must be in the store.
#[tactic(auto, unfolding(steps::specs::Steps::yields))]
fn check_reused<W: World>(
    alloc: Global,
    world: &mut W,
    store: &Path,
    digest: &Option<Digest>,
    before: Option<&LayerRow>,
) -> Result<(), ExportFault>
    requires { length store.now ≤ 4096 }
    ensures step { checks_reused store.now digest.now (option_copied before.entry)
        (seen W.World world.old) result (seen W.World world.new) }
{
    match (digest, before) {
        (Some(_), _) => Ok(()),
        (None, Some(row)) => look_for_stored(alloc, world, store, &row.digest),
        (None, None) => Ok(()),
    }
}

fn reuse<W: World>(
    alloc: Global,
    world: &mut W,
    store: &Path,
    digest: &Option<Digest>,
    before: Option<&LayerRow>,
) -> Result<Option<Settled>, ExportFault>
    requires { length store.now ≤ 4096 }
    ensures step { reuses store.now digest.now (option_copied before.entry)
        (seen W.World world.old) result (seen W.World world.new) }
{
    check_reused(alloc, world, store, digest, before)?;
    let digest = digest_or(digest, before);
    Ok(settled_as(Some(true), digest))
}

fn no_contents(alloc: Global, id: &BpId, layer: &LayerName) -> Result<Option<Settled>, ExportFault>
    ensures answer { IsAnswer cause_of result (Err (fault.NoContents id.now layer.now)) }
    ensures cause { IfErr result (λ fault. IsGivenCause (cause_of fault)) }
{
    Err(ExportFault::NoContents(id.copy(alloc)?, layer.copy(alloc)?))
}

fn no_previous(alloc: Global, id: &BpId, layer: &LayerName) -> Result<Option<Settled>, ExportFault>
    ensures answer { IsAnswer cause_of result (Err (fault.NoPrevious id.now layer.now)) }
    ensures cause { IfErr result (λ fault. IsGivenCause (cause_of fault)) }
{
    Err(ExportFault::NoPrevious(id.copy(alloc)?, layer.copy(alloc)?))
}

/// What becomes of a layer, by the table of its flags, its contents and the previous image's layers.
#[tactic(auto, unfolding(steps::specs::Steps::gives, steps::specs::Steps::yields))]
pub(crate) fn settle<W: World>(
    alloc: Global,
    world: &mut W,
    frame: &BuildpackFrame,
    layer: &LayerName,
    flags: Flags,
    contents: &Contents,
) -> Result<Option<Settled>, ExportFault>
    requires { length frame.now.store.now ≤ 4096 }
    ensures step { settles frame.now.store.now frame.now.previous.now frame.now.id.now layer.now flags contents.now
        (seen W.World world.old) result (seen W.World world.new) }
{
    let before = row_of(frame.previous, frame.id, layer);
    let digest = &contents.digest;
    match decision_of(flags, contents, before) {
        ExportRow::Skip => Ok(settled_as(None, *digest)),
        ExportRow::Add => Ok(settled_as(Some(false), *digest)),
        ExportRow::Reuse => reuse(alloc, world, frame.store, digest, before),
        ExportRow::NoContents => no_contents(alloc, frame.id, layer),
        ExportRow::NoPrevious => no_previous(alloc, frame.id, layer),
    }
}
