// What the documents of a folder name.
ghost use Rattle.std.specs.Prelude.{◌≡◌, ◌≤◌, ◌++◌, IfErr, IsTrue, OnOk, length, map, true};
ghost use Rattle.cnb_world.specs.Calls.{AreNames};
ghost use Rattle.cnb_world.specs.Path.{is_part};
ghost use Rattle.steps.specs.Causes.{IsAnswer, IsGivenCause};
ghost use Rattle.steps.specs.Each.{for_each};
ghost use Rattle.steps.specs.Outside.{seen};
ghost use Rattle.store_prune.specs.Faults.{cause_of};
ghost use Rattle.store_prune.specs.Named.{adds_document, adds_folder, adds_name, adds_where, digests_of_image};
ghost use Rattle.store_prune.specs.Named.{digests_of_run, is_document_name, named_by, reads_names};

use crate::fault::PruneFault;
use crate::listing::{is_file_at, list_folder};
use cnb_toml::{DocFault, ImageName, TableForm};
use cnb_world::{List, Memory, Path, Text, World};
use image_docs::{ImageDoc, LayerRow, Row, RunDoc};
use image_files::find_document;
use std::alloc::Global;
use tree_canon::Digest;

/// A document that names trees.
pub(crate) trait NamesTrees: TableForm {
    ghost use Rattle.std.specs.Prelude.{◌≡◌, ◌++◌, List as Seq, ℕ, OnOk};

    ghost digests_of: { Self.Value → Seq (Seq ℕ) };

    /// Adds the digests of the trees.
    fn push_digests(value: &Self::Value, named: &mut List<Digest>) -> Result<(), Memory>
        ensures { OnOk result (named.new ≡ named.old ++ digests_of value.now) };
}

fn push_rows(rows: &[Row], named: &mut List<Digest>) -> Result<(), Memory>
    ensures { OnOk result (named.new ≡ named.old ++ map (λ row. row.digest) rows.now) }
{
    for row in rows {
        named.push(row.digest)?;
    }
    Ok(())
}

fn push_layers(layers: &[LayerRow], named: &mut List<Digest>) -> Result<(), Memory>
    ensures { OnOk result (named.new ≡ named.old ++ map (λ row. row.digest) layers.now) }
{
    for row in layers {
        named.push(row.digest)?;
    }
    Ok(())
}

fn push_all(digests: &[Digest], named: &mut List<Digest>) -> Result<(), Memory>
    ensures { OnOk result (named.new ≡ named.old ++ digests.now) }
{
    for digest in digests {
        named.push(*digest)?;
    }
    Ok(())
}

impl NamesTrees for ImageDoc {
    ghost digests_of = { digests_of_image };

    fn push_digests(value: &ImageDoc, named: &mut List<Digest>) -> Result<(), Memory> {
        push_rows(value.rows.as_slice(), named)?;
        push_layers(value.layers.as_slice(), named)
    }
}

impl NamesTrees for RunDoc {
    ghost digests_of = { digests_of_run };

    fn push_digests(value: &RunDoc, named: &mut List<Digest>) -> Result<(), Memory> {
        push_all(value.rows.as_slice(), named)
    }
}

// What a document names that must be there.
fn named_by<D: NamesTrees>(
    alloc: Global,
    path: &Path,
    found: Option<D::Value>,
) -> Result<List<Digest>, PruneFault>
    ensures answer { IsAnswer cause_of result (named_by D.digests_of path.now found) }
    ensures cause { IfErr result (λ fault. IsGivenCause (cause_of fault)) }
{
    match found {
        Some(value) => {
            let mut named = List::new(alloc);
            D::push_digests(&value, &mut named)?;
            Ok(named)
        }
        None => Err(PruneFault::Document(path.copy(alloc)?, DocFault::Absent)),
    }
}

// What the document at a path names.
fn read_names<W: World, D: NamesTrees>(
    alloc: Global,
    world: &mut W,
    path: &Path,
) -> Result<List<Digest>, PruneFault>
    ensures steps { reads_names D.value_in D.digests_of path.now
        (seen W.World world.old) result (seen W.World world.new) }
{
    let found = find_document::<W, D>(alloc, world, path)?;
    named_by::<D>(alloc, path, found)
}

// What the document at a path names behind what was named before.
fn add_names_of<W: World, D: NamesTrees>(
    alloc: Global,
    world: &mut W,
    path: &Path,
    named: List<Digest>,
) -> Result<List<Digest>, PruneFault>
    ensures steps { adds_where D.value_in D.digests_of path.now named true
        (seen W.World world.old) result (seen W.World world.new) }
{
    let mut named = named;
    let more = read_names::<W, D>(alloc, world, path)?;
    push_all(more.as_slice(), &mut named)?;
    Ok(named)
}

// The same, if it is a regular file.
fn add_document<W: World, D: NamesTrees>(
    alloc: Global,
    world: &mut W,
    path: &Path,
    named: List<Digest>,
) -> Result<List<Digest>, PruneFault>
    ensures steps { adds_document D.value_in D.digests_of path.now named
        (seen W.World world.old) result (seen W.World world.new) }
{
    let there = is_file_at(alloc, world, path)?;
    if !there {
        return Ok(named);
    }
    add_names_of::<W, D>(alloc, world, path, named)
}

// Whether a name is that of a document.
fn is_document_name(name: &str) -> bool
    ensures { result ≡ is_document_name name.now }
{
    match name.strip_suffix(".toml") {
        Some(name) => ImageName::is_name(name),
        None => false,
    }
}

// What a name in a folder of documents gives.
#[tactic(auto, using(cnb_world::proofs::Lengths::length_joined, cnb_world::proofs::Lengths::part_within))]
fn add_name<W: World, D: NamesTrees>(
    alloc: Global,
    world: &mut W,
    folder: &Path,
    name: &Text,
    named: List<Digest>,
) -> Result<List<Digest>, PruneFault>
    requires part { IsTrue (is_part name.now) }
    requires short { length folder.now ≤ 4352 }
    ensures steps { adds_name D.value_in D.digests_of folder.now name.now named
        (seen W.World world.old) result (seen W.World world.new) }
{
    let word = name.as_str();
    if !is_document_name(word) {
        return Ok(named);
    }
    let path = folder.below(alloc, word)?;
    add_document::<W, D>(alloc, world, &path, named)
}

fn add_names<W: World, D: NamesTrees>(
    alloc: Global,
    world: &mut W,
    folder: &Path,
    names: &[Text],
    named: List<Digest>,
) -> Result<List<Digest>, PruneFault>
    requires names { AreNames names.now }
    requires short { length folder.now ≤ 4352 }
    ensures steps { for_each (adds_name D.value_in D.digests_of folder.now) names.now named
        (seen W.World world.old) result (seen W.World world.new) }
{
    let mut named = named;
    for name in names {
        named = add_name::<W, D>(alloc, world, folder, name, named)?;
    }
    Ok(named)
}

/// What the documents of a folder name behind what was named before, by file name ascending.
pub(crate) fn add_folder<W: World, D: NamesTrees>(
    alloc: Global,
    world: &mut W,
    folder: &Path,
    named: List<Digest>,
) -> Result<List<Digest>, PruneFault>
    requires { length folder.now ≤ 4352 }
    ensures steps { adds_folder D.value_in D.digests_of folder.now named
        (seen W.World world.old) result (seen W.World world.new) }
{
    let names = list_folder(alloc, world, folder)?;
    add_names::<W, D>(alloc, world, folder, names.as_slice(), named)
}
