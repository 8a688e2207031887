// An image laid out under a root.
ghost use Rattle.std.specs.Prelude.{◌≡◌, ◌≤◌, IfErr, IfOk, IfSome, IsTrue, Ok, length};
ghost use Rattle.std.specs.List.{list_all};
ghost use Rattle.cnb_world.specs.Tree.{item_at, kind_of};
ghost use Rattle.cnb_env.specs.Files.{is_absent};
ghost use Rattle.doc_files.specs.Faults.{read_cause};
ghost use Rattle.doc_files.specs.Reading.{BlamesOnly};
ghost use Rattle.image_docs.specs.Image.{is_image_doc};
ghost use Rattle.image_docs.specs.LaunchDoc.{is_launch_doc};
ghost use Rattle.image_docs.specs.Row.{is_row};
ghost use Rattle.steps.specs.Causes.{IsAnswer, IsGivenCause};
ghost use Rattle.steps.specs.Each.{for_each};
ghost use Rattle.steps.specs.Outside.{seen};
ghost use Rattle.steps.specs.Reading.{LeavesUnchanged};
ghost use Rattle.cnb_launch.specs.Faults.{cause_of};
ghost use Rattle.cnb_launch.specs.Unpacking.{ReadsAs, file_of, if_absent, launch_doc_place, lays_image, lays_launch};
ghost use Rattle.cnb_launch.specs.Unpacking.{lays_row, unpacks};

use crate::fault::LaunchFault;
use cnb_toml::ImageName;
use cnb_world::{Bytes, Kind, Memory, Path, PathFault, World};
use doc_files::{ReadFault, blamed};
use image_docs::{ImageDoc, LaunchDoc, Row, write_launch_doc};
use image_files::read_image;
use std::alloc::Global;
use tree_canon::{Node, Tree};
use tree_store::{lay_stored, write_tree};

#[tactic(auto, using(doc_files::proofs::Blame::blamed_last))]
fn is_absent<W: World>(alloc: Global, world: &mut W, path: &Path) -> Result<bool, ReadFault>
    ensures reads { IfSome (W.tree world.old) (λ files. IsAnswer read_cause result
        (Ok (is_absent (kind_of (item_at files path.now))))) }
    ensures blames { IfErr result (BlamesOnly path.now) }
    ensures leaves { LeavesUnchanged read_cause result (seen W.World world.old) (seen W.World world.new) }
    ensures misused { W.misused world.new ≡ W.misused world.old }
{
    match world.kind(path) {
        Ok(Kind::Absent) => Ok(true),
        Ok(_) => Ok(false),
        Err(fault) => Err(blamed(alloc, path, fault)),
    }
}

fn if_absent(alloc: Global, root: &Path, absent: bool) -> Result<(), LaunchFault>
    ensures answer { IsAnswer cause_of result (if_absent root.now absent) }
    ensures given { IfErr result (λ fault. IsGivenCause (cause_of fault)) }
{
    if absent {
        Ok(())
    } else {
        Err(LaunchFault::Exists(root.copy(alloc)?))
    }
}

// Lays the tree of a row at its place.
#[tactic(auto, using(crate::proofs::UnpackLemmas::row_short))]
fn lay_row<W: World>(
    alloc: Global,
    world: &mut W,
    store: &Path,
    root: &Path,
    row: &Row,
) -> Result<(), LaunchFault>
    requires store { length store.now ≤ 4096 }
    requires root { length root.now ≤ 4096 }
    requires row { IsTrue (is_row row.now) }
    ensures step { lays_row store.now root.now row.now tt (seen W.World world.old) result (seen W.World world.new) }
{
    lay_stored(alloc, world, store, &row.digest, root, &row.place)?;
    Ok(())
}

// Lays the trees of these rows, in order.
fn lay_rows<W: World>(
    alloc: Global,
    world: &mut W,
    store: &Path,
    root: &Path,
    rows: &[Row],
) -> Result<(), LaunchFault>
    requires store { length store.now ≤ 4096 }
    requires root { length root.now ≤ 4096 }
    requires rows { IsTrue (list_all is_row rows.now) }
    ensures step { for_each (lays_row store.now root.now) rows.now tt
        (seen W.World world.old) result (seen W.World world.new) }
{
    for row in rows {
        lay_row(alloc, world, store, root, row)?;
    }
    Ok(())
}

// A file of these bytes, as a tree. Bytes that are longer than a tree may be are more than memory has room for.
fn file_of(bytes: Bytes) -> Result<Tree, Memory>
    ensures file { IfOk result (λ tree. tree ≡ file_of bytes) }
{
    match Tree::new(Node::File { exec: false, bytes }) {
        Ok(tree) => Ok(tree),
        Err(_) => Err(Memory),
    }
}

fn launch_doc_place(alloc: Global) -> Result<Path, Memory>
    ensures path { IfOk result (λ path. path ≡ launch_doc_place) }
    ensures short { IfOk result (λ path. length path ≤ 8192) }
{
    match Path::parse(alloc, "/layers/config/metadata.toml") {
        Ok(path) => Ok(path),
        Err(PathFault::Memory) => Err(Memory),
        Err(PathFault::NotPath) => unreachable!(),
    }
}

// Lays the document of the launch as a file that isn't executable.
fn lay_launch<W: World>(
    alloc: Global,
    world: &mut W,
    root: &Path,
    launch: &LaunchDoc,
) -> Result<(), LaunchFault>
    requires root { length root.now ≤ 4096 }
    requires readable { IsTrue (is_launch_doc launch.now) }
    ensures step { lays_launch root.now launch.now (seen W.World world.old) result (seen W.World world.new) }
{
    let place = launch_doc_place(alloc)?;
    let bytes = write_launch_doc(alloc, launch)?;
    let tree = file_of(bytes)?;
    write_tree(alloc, world, root, &place, &tree)?;
    Ok(())
}

// Lays what an image says, where nothing stands at the root.
fn lay_image<W: World>(
    alloc: Global,
    world: &mut W,
    store: &Path,
    root: &Path,
    image: &ImageDoc,
) -> Result<(), LaunchFault>
    requires store { length store.now ≤ 4096 }
    requires root { length root.now ≤ 4096 }
    requires readable { IsTrue (is_image_doc image.now) }
    ensures steps { lays_image store.now root.now image.now (seen W.World world.old) result (seen W.World world.new) }
{
    let absent = is_absent(alloc, world, root)?;
    if_absent(alloc, root, absent)?;
    lay_rows(alloc, world, store, root, image.rows.as_slice())?;
    lay_launch(alloc, world, root, &image.launch)
}

/// Lays an image out under a root, where nothing stands: the trees of its rows in their order, and then the document
/// that says how it is launched. A folder merges into a folder, a file or a link takes the place of whatever stands,
/// and no link is followed. After a refusal a part may stand under the root.
pub fn unpack<W: World>(
    alloc: Global,
    world: &mut W,
    store: &Path,
    image: &ImageName,
    root: &Path,
) -> Result<(), LaunchFault>
    requires store { length store.now ≤ 4096 }
    requires root { length root.now ≤ 4096 }
    ensures steps { unpacks store.now image.now root.now (seen W.World world.old) result (seen W.World world.new) }
{
    let doc = read_image(alloc, world, store, image)?;
    lay_image(alloc, world, store, root, &doc)
}
