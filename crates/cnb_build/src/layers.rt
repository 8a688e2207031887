// The layers that a buildpack left.
ghost use Rattle.std.specs.Prelude.{◌≡◌, ◌≤◌, [], IfErr, IfOk, Ok, length, true};
ghost use Rattle.cnb_world.specs.Tree.{can_list, item_at, kind_of};
ghost use Rattle.cnb_env.specs.Contents.{contents_of};
ghost use Rattle.cnb_env.specs.Files.{is_absent};
ghost use Rattle.cnb_env.specs.Layers.{AreShort};
ghost use Rattle.doc_files.specs.Reading.{names_at};
ghost use Rattle.layer_paths.specs.Paths.{layer_document};
ghost use Rattle.steps.specs.Causes.{IsAnswer, IsGivenCause, Only};
ghost use Rattle.steps.specs.Each.{for_each};
ghost use Rattle.steps.specs.Outside.{seen};
ghost use Rattle.cnb_build.specs.Layers.{found_with, reads_layer, reads_layers, reads_names, with_layer};
ghost use Rattle.cnb_build.specs.Reading.{reads_files};
ghost use Rattle.cnb_build.specs.Refusals.{cause_of};

use crate::fault::BuildFault;
use crate::reading::value_at;
use cnb_env::{LayerSet, contents};
use cnb_toml::LayerName;
use cnb_world::{Bytes, Kind, List, Memory, Path, Text, World};
use doc_files::{blamed, list_names};
use layer_paths::{contents_path, layer_document, layers_among};
use run_docs::{LayerDoc, read_layer};
use std::alloc::Global;

#[tactic(auto, unfolding(steps::specs::Steps::reads), using(steps::proofs::StepLemmas::allowed_by, crate::proofs::BuildSteps::call_counted, crate::proofs::BuildSteps::read_fails, crate::proofs::BuildSteps::fails_named))]
fn kind_at<W: World>(alloc: Global, world: &mut W, path: &Path) -> Result<Kind, BuildFault>
    ensures step { reads_files (Only path.now) (λ files. true) (λ files. Ok (kind_of (item_at files path.now)))
        (seen W.World world.old) result (seen W.World world.new) }
{
    match world.kind(path) {
        Ok(kind) => Ok(kind),
        Err(fault) => Err(BuildFault::from(blamed(alloc, path, fault))),
    }
}

fn names_in<W: World>(alloc: Global, world: &mut W, folder: &Path) -> Result<List<Text>, BuildFault>
    ensures step { reads_files (Only folder.now) (λ files. can_list files folder.now) (λ files. names_at files folder.now)
        (seen W.World world.old) result (seen W.World world.new) }
{
    let names = list_names(alloc, world, folder)?;
    Ok(names)
}

fn is_absent(kind: Kind) -> bool
    ensures { result ≡ is_absent kind }
{
    matches!(kind, Kind::Absent)
}

// The names in the folder, of which there are none where nothing stands.
fn read_names<W: World>(
    alloc: Global,
    world: &mut W,
    folder: &Path,
) -> Result<List<Text>, BuildFault>
    ensures step { reads_names folder.now (seen W.World world.old) result (seen W.World world.new) }
{
    let kind = kind_at(alloc, world, folder)?;
    if is_absent(kind) {
        return Ok(List::new(alloc));
    }
    names_in(alloc, world, folder)
}

#[tactic(auto, using(crate::proofs::PlaceLemmas::more_layers_short))]
fn with_layer(
    alloc: Global,
    folder: &Path,
    layer: &LayerName,
    mut found: LayerSet,
    doc: &LayerDoc,
) -> Result<LayerSet, Memory>
    requires folder { length folder.now ≤ 4352 }
    requires short { AreShort found }
    ensures found { IfOk result (λ all. all ≡ with_layer folder.now layer.now found doc.now) }
    ensures short { IfOk result AreShort }
{
    if doc.build {
        found.push(contents_path(alloc, folder, layer)?)?;
    }
    Ok(found)
}

fn found_with(
    alloc: Global,
    folder: &Path,
    layer: &LayerName,
    found: LayerSet,
    path: &Path,
    document: Option<Bytes>,
) -> Result<LayerSet, BuildFault>
    requires folder { length folder.now ≤ 4352 }
    requires path { path.now ≡ layer_document folder.now layer.now }
    requires short { AreShort found }
    ensures answer { IsAnswer cause_of result (found_with folder.now layer.now found document) }
    ensures cause { IfErr result (λ fault. IsGivenCause (cause_of fault)) }
    ensures short { IfOk result AreShort }
{
    match document {
        Some(bytes) => {
            let doc = value_at(alloc, path, read_layer(alloc, bytes.as_slice()))?;
            Ok(with_layer(alloc, folder, layer, found, &doc)?)
        }
        None => Ok(found),
    }
}

fn regular_file<W: World>(
    alloc: Global,
    world: &mut W,
    path: &Path,
) -> Result<Option<Bytes>, BuildFault>
    ensures step { reads_files (Only path.now) (λ files. true) (λ files. contents_of (item_at files path.now))
        (seen W.World world.old) result (seen W.World world.new) }
{
    let found = contents(alloc, world, path)?;
    Ok(found)
}

// The layers with this one behind them, where it is there while later buildpacks are built.
fn read_layer_at<W: World>(
    alloc: Global,
    world: &mut W,
    folder: &Path,
    layer: &LayerName,
    found: LayerSet,
) -> Result<LayerSet, BuildFault>
    requires folder { length folder.now ≤ 4352 }
    requires short { AreShort found }
    ensures step { reads_layer folder.now layer.now found (seen W.World world.old) result (seen W.World world.new) }
    ensures short { IfOk result AreShort }
{
    let path = layer_document(alloc, folder, layer)?;
    let document = regular_file(alloc, world, &path)?;
    found_with(alloc, folder, layer, found, &path, document)
}

#[tactic(auto, using(crate::proofs::PlaceLemmas::no_layers_short))]
fn read_each<W: World>(
    alloc: Global,
    world: &mut W,
    folder: &Path,
    layers: &[LayerName],
) -> Result<LayerSet, BuildFault>
    requires { length folder.now ≤ 4352 }
    ensures step { for_each (reads_layer folder.now) layers.now [] (seen W.World world.old) result
        (seen W.World world.new) }
    ensures short { IfOk result AreShort }
{
    let mut found = List::new(alloc);
    for layer in layers {
        found = read_layer_at(alloc, world, folder, layer, found)?;
    }
    Ok(found)
}

/// Reads the documents of the layers in a folder, ascending by layer name (buildpack.md, "Layer Types"): the folders of
/// those that are there while later buildpacks are built.
pub(crate) fn read_layers<W: World>(
    alloc: Global,
    world: &mut W,
    folder: &Path,
) -> Result<LayerSet, BuildFault>
    requires { length folder.now ≤ 4352 }
    ensures step { reads_layers folder.now (seen W.World world.old) result (seen W.World world.new) }
    ensures short { IfOk result AreShort }
{
    let names = read_names(alloc, world, folder)?;
    let layers = layers_among(alloc, &names)?;
    read_each(alloc, world, folder, layers.as_slice())
}
