// The document that says how an image is launched.
ghost use Rattle.std.specs.Prelude.{◌≡◌, ◌≤◌, ℕ, IfErr, IfOk, IfSome, IsTrue, length};
ghost use Rattle.std.specs.List.{list_all};
ghost use Rattle.std.specs.Option.{option_map};
ghost use Rattle.cnb_world.specs.Calls.{MayMisuse};
ghost use Rattle.cnb_world.specs.Tree.{is_file_or_absent, item_at};
ghost use Rattle.cnb_toml.specs.Process.{is_process};
ghost use Rattle.steps.specs.Causes.{CountsFiles, IsAnswer};
ghost use Rattle.steps.specs.Outside.{seen};
ghost use Rattle.steps.specs.Reading.{LeavesUnchanged};
ghost use Rattle.doc_files.specs.Faults.{read_cause};
ghost use Rattle.doc_files.specs.Reading.{BlamesOnly};
ghost use Rattle.cnb_launch.specs.Documents.{is_fit_doc, launch_doc_at, launch_doc_of, launch_doc_under};
ghost use Rattle.cnb_launch.specs.Places.{launch_doc_path};

use crate::places::launch_doc_path;
use cnb_toml::DocFault;
use cnb_world::{Bytes, Path, World};
use doc_files::{ReadFault, read_at, read_document};
use image_docs::{LaunchDoc, read_launch_doc};
use std::alloc::Global;

#[tactic(auto, using(crate::proofs::SoundLemmas::answer_is_sound))]
fn launch_doc_of(alloc: Global, path: &Path, found: Option<Bytes>) -> Result<LaunchDoc, ReadFault>
    ensures reads { IsAnswer read_cause result (launch_doc_of path.now found) }
    ensures sound { IfOk result (λ doc. IsTrue (list_all is_process doc.processes)) }
    ensures blames { IfErr result (BlamesOnly path.now) }
    ensures files { (n : ℕ) → CountsFiles read_cause result n n }
{
    match found {
        Some(bytes) => {
            let doc = read_at(alloc, path, read_launch_doc(alloc, bytes.as_slice()))?;
            Ok(doc)
        }
        None => Err(ReadFault::Document(path.copy(alloc)?, DocFault::Absent)),
    }
}

fn launch_doc_at<W: World>(
    alloc: Global,
    world: &mut W,
    path: &Path,
) -> Result<LaunchDoc, ReadFault>
    ensures reads { IfSome (W.tree world.old) (λ files. IsAnswer read_cause result (launch_doc_at path.now files)) }
    ensures sound { IfOk result (λ doc. IsTrue (list_all is_process doc.processes)) }
    ensures blames { IfErr result (BlamesOnly path.now) }
    ensures leaves { LeavesUnchanged read_cause result (seen W.World world.old) (seen W.World world.new) }
    ensures misused { MayMisuse (option_map (λ files. is_file_or_absent (item_at files path.now)) (W.tree world.old))
        (W.misused world.old) (W.misused world.new) }
{
    let found = read_document(alloc, world, path)?;
    let doc = launch_doc_of(alloc, path, found)?;
    Ok(doc)
}

/// Reads the document of the image under a root, which must be there.
pub(crate) fn read_launch<W: World>(
    alloc: Global,
    world: &mut W,
    root: &Path,
) -> Result<LaunchDoc, ReadFault>
    requires { length root.now ≤ 4096 }
    ensures reads { IfSome (W.tree world.old) (λ files. IsAnswer read_cause result (launch_doc_under root.now files)) }
    ensures sound { IfOk result (λ doc. IsTrue (list_all is_process doc.processes)) }
    ensures blames { IfErr result (BlamesOnly (launch_doc_path root.now)) }
    ensures leaves { LeavesUnchanged read_cause result (seen W.World world.old) (seen W.World world.new) }
    ensures misused { MayMisuse (option_map (is_fit_doc root.now) (W.tree world.old))
        (W.misused world.old) (W.misused world.new) }
{
    let path = launch_doc_path(alloc, root)?;
    let doc = launch_doc_at(alloc, world, &path)?;
    Ok(doc)
}
