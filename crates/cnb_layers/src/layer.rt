// What a buildpack left of one layer.
ghost use Rattle.std.specs.Prelude.{◌≡◌, ◌≤◌, Err, IfErr, Ok, false, length};
ghost use Rattle.cnb_world.specs.Tree.{is_root};
ghost use Rattle.steps.specs.Causes.{IsAnswer, IsGivenCause};
ghost use Rattle.steps.specs.Outside.{seen};
ghost use Rattle.run_docs.specs.Layer.{layer_in};
ghost use Rattle.cnb_layers.specs.Layer.{digests_contents, finds_contents, looks_for_contents, puts_contents};
ghost use Rattle.cnb_layers.specs.Layer.{reads_layer, reads_regular, takes_contents, there_by};
ghost use Rattle.cnb_layers.specs.Reading.{some_value_at};
ghost use Rattle.cnb_layers.specs.declared.fault.ExportFault.TheVariants as fault;
ghost use Rattle.tree_store.specs.declared.fault.StoreFault.TheVariants as stored;
ghost use Rattle.cnb_layers.specs.Refusals.{cause_of};

use crate::fault::ExportFault;
use crate::folder::contents_folder;
use crate::frame::BuildpackFrame;
use crate::reading::{kind_at, value_at};
use cnb_toml::LayerName;
use cnb_world::{Bytes, Kind, Path, World};
use layer_flags::Flags;
use run_docs::{LayerDoc, read_layer};
use std::alloc::Global;
use tree_canon::Digest;
use tree_store::{StoreFault, digest_folder, put_folder};

/// The contents of a layer: whether they are there, and their digest, where they go into the image or into caches.
#[derive(Drop)]
pub(crate) struct Contents {
    pub(crate) there: bool,
    pub(crate) digest: Option<Digest>,
}

fn layer_value(
    alloc: Global,
    path: &Path,
    found: Option<Bytes>,
) -> Result<Option<LayerDoc>, ExportFault>
    ensures answer { IsAnswer cause_of result (some_value_at layer_in path.now found) }
    ensures cause { IfErr result (λ fault. IsGivenCause (cause_of fault)) }
{
    match found {
        Some(bytes) => {
            let doc = value_at(alloc, path, read_layer(alloc, bytes.as_slice()))?;
            Ok(Some(doc))
        }
        None => Ok(None),
    }
}

/// The document of a layer, where a regular file is there.
pub(crate) fn read_layer_document<W: World>(
    alloc: Global,
    world: &mut W,
    path: &Path,
) -> Result<Option<LayerDoc>, ExportFault>
    ensures step { reads_layer path.now (seen W.World world.old) result (seen W.World world.new) }
{
    let found = regular_file(alloc, world, path)?;
    layer_value(alloc, path, found)
}

fn regular_file<W: World>(
    alloc: Global,
    world: &mut W,
    path: &Path,
) -> Result<Option<Bytes>, ExportFault>
    ensures step { reads_regular path.now (seen W.World world.old) result (seen W.World world.new) }
{
    let found = cnb_env::contents(alloc, world, path)?;
    Ok(found)
}

fn there_by(alloc: Global, path: &Path, kind: Kind) -> Result<bool, ExportFault>
    ensures answer { IsAnswer cause_of result (there_by path.now kind) }
    ensures cause { IfErr result (λ fault. IsGivenCause (cause_of fault)) }
{
    match kind {
        Kind::Folder => Ok(true),
        Kind::Absent => Ok(false),
        Kind::File { .. } => odd(alloc, path),
        Kind::Link => odd(alloc, path),
        Kind::Odd => odd(alloc, path),
    }
}

fn odd(alloc: Global, path: &Path) -> Result<bool, ExportFault>
    ensures answer { IsAnswer cause_of result (Err (fault.Store (stored.OddFile path.now))) }
    ensures cause { IfErr result (λ fault. IsGivenCause (cause_of fault)) }
{
    Err(ExportFault::Store(StoreFault::OddFile(path.copy(alloc)?)))
}

// Whether a layer's contents are there. What is neither a folder nor absent is refused.
fn look_for_contents<W: World>(
    alloc: Global,
    world: &mut W,
    path: &Path,
) -> Result<bool, ExportFault>
    ensures step { looks_for_contents path.now (seen W.World world.old) result (seen W.World world.new) }
{
    let kind = kind_at(alloc, world, path)?;
    there_by(alloc, path, kind)
}

// Contents that go into the image are put as they are read, and nothing of them is kept in memory.
fn put_contents<W: World>(
    alloc: Global,
    world: &mut W,
    store: &Path,
    path: &Path,
) -> Result<Contents, ExportFault>
    requires store { length store.now ≤ 4096 }
    requires path { length path.now ≤ 8192 }
    ensures step { puts_contents store.now path.now (seen W.World world.old) result (seen W.World world.new) }
{
    let digest = put_folder(alloc, world, store, path)?;
    Ok(Contents {
        there: true,
        digest: Some(digest),
    })
}

// Contents that go into caches alone are hashed as they are read, and nothing of them is kept in memory.
fn digest_contents<W: World>(
    alloc: Global,
    world: &mut W,
    path: &Path,
) -> Result<Contents, ExportFault>
    requires path { length path.now ≤ 8192 }
    requires plain { is_root path.now ≡ false }
    ensures step { digests_contents path.now (seen W.World world.old) result (seen W.World world.new) }
{
    let digest = digest_folder(alloc, world, path)?;
    Ok(Contents {
        there: true,
        digest: Some(digest),
    })
}

// Takes the contents of a layer, where they are there and go into the image or into caches.
#[tactic(auto, unfolding(steps::specs::Steps::yields))]
fn take_contents<W: World>(
    alloc: Global,
    world: &mut W,
    store: &Path,
    flags: Flags,
    path: &Path,
    there: bool,
) -> Result<Contents, ExportFault>
    requires store { length store.now ≤ 4096 }
    requires path { length path.now ≤ 8192 }
    requires plain { is_root path.now ≡ false }
    ensures step { takes_contents store.now flags path.now there (seen W.World world.old) result
        (seen W.World world.new) }
{
    match (there, flags.launch, flags.cache) {
        (true, true, _) => put_contents(alloc, world, store, path),
        (true, false, true) => digest_contents(alloc, world, path),
        (true, false, false) | (false, _, _) => Ok(Contents {
            there,
            digest: None,
        }),
    }
}

/// Finds the contents of a layer. Those that go into the image are put into the store as they are read, and those that
/// go into caches alone are hashed as they are read; nothing of them is kept in memory.
pub(crate) fn find_contents<W: World>(
    alloc: Global,
    world: &mut W,
    frame: &BuildpackFrame,
    layer: &LayerName,
    flags: Flags,
) -> Result<Contents, ExportFault>
    requires store { length frame.now.store.now ≤ 4096 }
    requires folder { length frame.now.folder.now ≤ 4352 }
    ensures step { finds_contents frame.now.store.now frame.now.folder.now layer.now flags
        (seen W.World world.old) result (seen W.World world.new) }
{
    let path = contents_folder(alloc, frame.folder, layer)?;
    let there = look_for_contents(alloc, world, &path)?;
    take_contents(alloc, world, frame.store, flags, &path, there)
}
