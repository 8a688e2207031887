// Documents that are read by their forms.
ghost use Rattle.std.specs.Prelude.{◌≡◌, ℕ, IfErr, IfOk, IfSome};
ghost use Rattle.std.specs.Option.{option_map};
ghost use Rattle.cnb_world.specs.Calls.{MayMisuse};
ghost use Rattle.steps.specs.Causes.{CountsFiles, IsAnswer};
ghost use Rattle.steps.specs.Outside.{seen};
ghost use Rattle.steps.specs.Reading.{LeavesUnchanged};
ghost use Rattle.doc_files.specs.Faults.{read_cause};
ghost use Rattle.doc_files.specs.Reading.{BlamesOnly};
ghost use Rattle.image_files.specs.Documents.{IsRead, document_in, found_of, is_fit_document};

use cnb_toml::TableForm;
use cnb_world::{Bytes, Path, World};
use doc_files::{ReadFault, read_at};
use std::alloc::Global;

// What bytes read as, where they are there.
fn found_of<F: TableForm>(
    alloc: Global,
    path: &Path,
    found: Option<Bytes>,
) -> Result<Option<F::Value>, ReadFault>
    ensures reads { IsAnswer read_cause result (found_of F.value_in path.now found) }
    ensures read { IfOk result (λ found. IfSome found (IsRead F.value_in)) }
    ensures blames { IfErr result (BlamesOnly path.now) }
    ensures files { (n : ℕ) → CountsFiles read_cause result n n }
{
    match found {
        Some(bytes) => {
            let value = read_at(
                alloc,
                path,
                cnb_toml::read_document::<F>(alloc, bytes.as_slice()),
            )?;
            Ok(Some(value))
        }
        None => Ok(None),
    }
}

/// The document at a path, where one is there.
pub fn find_document<W: World, F: TableForm>(
    alloc: Global,
    world: &mut W,
    path: &Path,
) -> Result<Option<F::Value>, ReadFault>
    ensures reads { IfSome (W.tree world.old) (λ files.
        IsAnswer read_cause result (document_in F.value_in path.now files)) }
    ensures read { IfOk result (λ found. IfSome found (IsRead F.value_in)) }
    ensures blames { IfErr result (BlamesOnly path.now) }
    ensures leaves { LeavesUnchanged read_cause result (seen W.World world.old) (seen W.World world.new) }
    ensures misused { MayMisuse (option_map (is_fit_document path.now) (W.tree world.old))
        (W.misused world.old) (W.misused world.new) }
{
    let found = doc_files::read_document(alloc, world, path)?;
    let value = found_of::<F>(alloc, path, found)?;
    Ok(value)
}
