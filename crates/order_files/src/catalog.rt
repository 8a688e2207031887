// The buildpacks of a folder.
ghost use Rattle.std.specs.Prelude.{◌≡◌, ◌≤◌, List as Seq, ℕ, Ok, IfErr, IfOk, IfSome, IsTrue, false, length};
ghost use Rattle.std.specs.List.{list_all};
ghost use Rattle.std.specs.Option.{option_map};
ghost use Rattle.cnb_world.specs.Calls.{AreNames, MayMisuse};
ghost use Rattle.cnb_world.specs.Path.{is_part, joined};
ghost use Rattle.steps.specs.Causes.{IsAnswer};
ghost use Rattle.steps.specs.Outside.{seen};
ghost use Rattle.steps.specs.Reading.{LeavesUnchanged};
ghost use Rattle.doc_files.specs.Faults.{read_cause};
ghost use Rattle.doc_files.specs.Reading.{BlamesOne};
ghost use Rattle.order_files.specs.Catalog.{IsOfCatalog, IsOfId, buildpack_in, buildpacks_in, catalog_in, followed_by};
ghost use Rattle.order_files.specs.Catalog.{is_fit_buildpack, is_fit_catalog};
ghost use Rattle.order_files.specs.Places.{KeepsOtherIds, has_place};

use crate::version::read_versions;
use cnb_world::{Path, Text, World};
use doc_files::{ReadFault, is_folder, list_names};
use order_expand::Catalog;
use std::alloc::Global;

// The catalog with what a name in the folder of buildpacks gives.
#[tactic(auto, using(crate::proofs::Lengths::id_fits))]
fn with_buildpack<W: World>(
    alloc: Global,
    world: &mut W,
    catalog: Catalog,
    buildpacks: &Path,
    id_folder: &Text,
) -> Result<Catalog, ReadFault>
    requires part { IsTrue (is_part id_folder.now) }
    requires short { length buildpacks.now ≤ 4096 }
    requires vacant { (version : Seq ℕ) → has_place catalog id_folder.now version ≡ false }
    ensures reads { IfSome (W.tree world.old) (λ files.
        IsAnswer read_cause result (followed_by (Ok catalog) (buildpack_in files buildpacks.now id_folder.now))) }
    ensures blames { IfErr result (BlamesOne (IsOfId (joined buildpacks.now id_folder.now))) }
    ensures others { IfOk result (KeepsOtherIds id_folder.now catalog) }
    ensures leaves { LeavesUnchanged read_cause result (seen W.World world.old) (seen W.World world.new) }
    ensures misused { MayMisuse (option_map (λ files.
        is_fit_buildpack files buildpacks.now id_folder.now) (W.tree world.old))
        (W.misused world.old) (W.misused world.new) }
{
    let folder = buildpacks.below(alloc, id_folder.as_str())?;
    if !is_folder(alloc, world, &folder)? {
        return Ok(catalog);
    }
    let versions = list_names(alloc, world, &folder)?;
    let catalog = read_versions(
        alloc,
        world,
        catalog,
        &folder,
        id_folder,
        versions.as_slice(),
    )?;
    Ok(catalog)
}

// The buildpacks of these names, in order.
fn read_buildpacks<W: World>(
    alloc: Global,
    world: &mut W,
    buildpacks: &Path,
    id_folders: &[Text],
) -> Result<Catalog, ReadFault>
    requires names { AreNames id_folders.now }
    requires short { length buildpacks.now ≤ 4096 }
    ensures reads { IfSome (W.tree world.old) (λ files.
        IsAnswer read_cause result (buildpacks_in files buildpacks.now id_folders.now)) }
    ensures blames { IfErr result (BlamesOne (IsOfCatalog buildpacks.now)) }
    ensures leaves { LeavesUnchanged read_cause result (seen W.World world.old) (seen W.World world.new) }
    ensures misused { MayMisuse (option_map (λ files.
        list_all (is_fit_buildpack files buildpacks.now) id_folders.now) (W.tree world.old))
        (W.misused world.old) (W.misused world.new) }
{
    let mut catalog = Catalog::new(alloc);
    for id_folder in id_folders {
        catalog = with_buildpack(alloc, world, catalog, buildpacks, id_folder)?;
    }
    Ok(catalog)
}

/// The buildpacks of a folder (platform.md, "Buildpacks Directory Layout"), ascending by the folders of their ids and
/// then by version. What is no folder is passed over, and so is a version's folder without a `buildpack.toml`.
pub fn read_catalog<W: World>(
    alloc: Global,
    world: &mut W,
    buildpacks: &Path,
) -> Result<Catalog, ReadFault>
    requires { length buildpacks.now ≤ 4096 }
    ensures reads { IfSome (W.tree world.old) (λ files. IsAnswer read_cause result (catalog_in buildpacks.now files)) }
    ensures blames { IfErr result (BlamesOne (IsOfCatalog buildpacks.now)) }
    ensures leaves { LeavesUnchanged read_cause result (seen W.World world.old) (seen W.World world.new) }
    ensures misused { MayMisuse (option_map (is_fit_catalog buildpacks.now) (W.tree world.old))
        (W.misused world.old) (W.misused world.new) }
{
    let id_folders = list_names(alloc, world, buildpacks)?;
    let catalog = read_buildpacks(alloc, world, buildpacks, id_folders.as_slice())?;
    Ok(catalog)
}
