// The versions of a buildpack in a catalog.
ghost use Rattle.std.specs.Prelude.{◌≡◌, ◌≤◌, List as Seq, ℕ, Ok, IfErr, IfOk, IfSome, IsTrue, false, length};
ghost use Rattle.std.specs.Option.{option_map};
ghost use Rattle.cnb_world.specs.Calls.{AreNames, MayMisuse};
ghost use Rattle.cnb_world.specs.Path.{is_part, joined};
ghost use Rattle.steps.specs.Causes.{IsAnswer};
ghost use Rattle.steps.specs.Outside.{seen};
ghost use Rattle.steps.specs.Reading.{LeavesUnchanged};
ghost use Rattle.doc_files.specs.Faults.{read_cause};
ghost use Rattle.doc_files.specs.Reading.{BlamesOne};
ghost use Rattle.order_files.specs.Catalog.{IsOfId, IsOfVersion, are_fit_versions, followed_by, is_fit_version, listed};
ghost use Rattle.order_files.specs.Catalog.{version_in, versions_in};
ghost use Rattle.order_files.specs.Places.{IsPlaced, KeepsOtherIds, KeepsOthers, has_place};

use crate::descriptor::read_descriptor;
use bp_docs::Descriptor;
use cnb_world::{Memory, Path, Text, World};
use doc_files::{ReadFault, is_folder};
use order_expand::{Catalog, CatalogFault};
use std::alloc::Global;

// The catalog with a descriptor at its end, of whose folder it has none yet.
fn with_descriptor(
    mut catalog: Catalog,
    id_folder: &Text,
    version: &Text,
    found: Option<Descriptor>,
) -> Result<Catalog, Memory>
    requires placed { IsPlaced id_folder.now version.now found }
    requires vacant { has_place catalog id_folder.now version.now ≡ false }
    ensures added { IfOk result (λ new. followed_by (Ok catalog) (listed (Ok found)) ≡ Ok new) }
    ensures others { IfOk result (KeepsOthers id_folder.now version.now catalog) }
{
    let Some(descriptor) = found else {
        return Ok(catalog);
    };
    match catalog.add(descriptor) {
        Ok(()) => Ok(catalog),
        Err(CatalogFault::Memory) => Err(Memory),
        Err(CatalogFault::Twice(_)) => unreachable!(),
    }
}

// The catalog with what a name in the folder of an id gives.
#[tactic(auto, using(crate::proofs::Lengths::version_fits))]
fn read_version<W: World>(
    alloc: Global,
    world: &mut W,
    catalog: Catalog,
    folder: &Path,
    id_folder: &Text,
    version: &Text,
) -> Result<Catalog, ReadFault>
    requires part { IsTrue (is_part version.now) }
    requires short { length folder.now ≤ 4352 }
    requires vacant { has_place catalog id_folder.now version.now ≡ false }
    ensures reads { IfSome (W.tree world.old) (λ files.
        IsAnswer read_cause result (followed_by (Ok catalog) (version_in files folder.now id_folder.now version.now))) }
    ensures blames { IfErr result (BlamesOne (IsOfVersion (joined folder.now version.now))) }
    ensures others { IfOk result (KeepsOthers id_folder.now version.now catalog) }
    ensures leaves { LeavesUnchanged read_cause result (seen W.World world.old) (seen W.World world.new) }
    ensures misused { MayMisuse (option_map (λ files. is_fit_version files folder.now version.now) (W.tree world.old))
        (W.misused world.old) (W.misused world.new) }
{
    let place = folder.below(alloc, version.as_str())?;
    if !is_folder(alloc, world, &place)? {
        return Ok(catalog);
    }
    let found = read_descriptor(alloc, world, &place, id_folder, version)?;
    let catalog = with_descriptor(catalog, id_folder, version, found)?;
    Ok(catalog)
}

/// The catalog with the versions of these names in the folder of an id, in order.
pub(crate) fn read_versions<W: World>(
    alloc: Global,
    world: &mut W,
    mut catalog: Catalog,
    folder: &Path,
    id_folder: &Text,
    versions: &[Text],
) -> Result<Catalog, ReadFault>
    requires names { AreNames versions.now }
    requires short { length folder.now ≤ 4352 }
    requires vacant { (version : Seq ℕ) → has_place catalog id_folder.now version ≡ false }
    ensures reads { IfSome (W.tree world.old) (λ files.
        IsAnswer read_cause result (followed_by (Ok catalog)
        (versions_in files folder.now id_folder.now versions.now))) }
    ensures blames { IfErr result (BlamesOne (IsOfId folder.now)) }
    ensures others { IfOk result (KeepsOtherIds id_folder.now catalog) }
    ensures leaves { LeavesUnchanged read_cause result (seen W.World world.old) (seen W.World world.new) }
    ensures misused { MayMisuse (option_map (λ files.
        are_fit_versions files folder.now versions.now) (W.tree world.old))
        (W.misused world.old) (W.misused world.new) }
{
    for version in versions {
        catalog = read_version(alloc, world, catalog, folder, id_folder, version)?;
    }
    Ok(catalog)
}
