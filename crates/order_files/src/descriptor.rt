// The descriptor of a version of a buildpack.
ghost use Rattle.std.specs.Prelude.{◌≤◌, ℕ, IfErr, IfOk, IfSome, OnOk, length};
ghost use Rattle.std.specs.Option.{option_map};
ghost use Rattle.cnb_world.specs.Calls.{MayMisuse};
ghost use Rattle.steps.specs.Causes.{CountsFiles, IsAnswer};
ghost use Rattle.steps.specs.Outside.{seen};
ghost use Rattle.steps.specs.Reading.{LeavesUnchanged};
ghost use Rattle.doc_files.specs.Faults.{read_cause};
ghost use Rattle.doc_files.specs.Reading.{BlamesOnly};
ghost use Rattle.order_files.specs.Descriptor.{described, descriptor_at, descriptor_path, giving, is_fit_descriptor};
ghost use Rattle.order_files.specs.Descriptor.{with_folder_names};
ghost use Rattle.order_files.specs.Places.{BelongsTo, IsPlaced};

use bp_docs::{Descriptor, read_buildpack};
use cnb_toml::DocFault;
use cnb_world::{Bytes, Path, Text, World};
use doc_files::{ReadFault, read_at, read_document};
use std::alloc::Global;

// Refuses a descriptor whose folders don't have its names.
fn check_folder_names(
    alloc: Global,
    path: &Path,
    id_folder: &Text,
    version: &Text,
    descriptor: &Descriptor,
) -> Result<(), ReadFault>
    ensures reads { IsAnswer read_cause (giving descriptor.now result)
        (with_folder_names path.now id_folder.now version.now descriptor.now) }
    ensures blames { IfErr result (BlamesOnly path.now) }
    ensures placed { OnOk result (BelongsTo id_folder.now version.now descriptor.now) }
    ensures files { (n : ℕ) → CountsFiles read_cause result n n }
{
    let own_folder = descriptor.key.id.folder(alloc)?;
    if own_folder.as_str() != id_folder.as_str() {
        let key = Text::of(alloc, "buildpack.id")?;
        return Err(ReadFault::Document(path.copy(alloc)?, DocFault::Wrong(key)));
    }
    if descriptor.key.version.as_str() != version.as_str() {
        let key = Text::of(alloc, "buildpack.version")?;
        return Err(ReadFault::Document(path.copy(alloc)?, DocFault::Wrong(key)));
    }
    Ok(())
}

// The descriptor that a document is.
fn described(
    alloc: Global,
    path: &Path,
    id_folder: &Text,
    version: &Text,
    found: Option<Bytes>,
) -> Result<Option<Descriptor>, ReadFault>
    ensures reads { IsAnswer read_cause result (described path.now id_folder.now version.now found) }
    ensures blames { IfErr result (BlamesOnly path.now) }
    ensures placed { IfOk result (IsPlaced id_folder.now version.now) }
    ensures files { (n : ℕ) → CountsFiles read_cause result n n }
{
    match found {
        Some(bytes) => {
            let descriptor = read_at(alloc, path, read_buildpack(alloc, bytes.as_slice()))?;
            check_folder_names(alloc, path, id_folder, version, &descriptor)?;
            Ok(Some(descriptor))
        }
        None => Ok(None),
    }
}

/// The descriptor in the folder of a version, where it has one. `id_folder` is the name of the folder above.
#[tactic(auto, using(crate::proofs::Lengths::document_fits))]
pub(crate) fn read_descriptor<W: World>(
    alloc: Global,
    world: &mut W,
    folder: &Path,
    id_folder: &Text,
    version: &Text,
) -> Result<Option<Descriptor>, ReadFault>
    requires { length folder.now ≤ 4608 }
    ensures reads { IfSome (W.tree world.old) (λ files.
        IsAnswer read_cause result (descriptor_at files folder.now id_folder.now version.now)) }
    ensures blames { IfErr result (BlamesOnly (descriptor_path folder.now)) }
    ensures placed { IfOk result (IsPlaced id_folder.now version.now) }
    ensures leaves { LeavesUnchanged read_cause result (seen W.World world.old) (seen W.World world.new) }
    ensures misused { MayMisuse (option_map (λ files. is_fit_descriptor files folder.now) (W.tree world.old))
        (W.misused world.old) (W.misused world.new) }
{
    let path = folder.below(alloc, "buildpack.toml")?;
    let found = read_document(alloc, world, &path)?;
    let descriptor = described(alloc, &path, id_folder, version, found)?;
    Ok(descriptor)
}
