// Where a buildpack stands, and the name of its plan's file.
ghost use Rattle.std.specs.Prelude.{◌≡◌, ◌<◌, ◌≤◌, IfOk, IsTrue, length};
ghost use Rattle.cnb_world.specs.Path.{beside, is_part};
ghost use Rattle.cnb_env.specs.Buildpack.{buildpack_folder, plan_name_of};

use cnb_toml::Key;
use cnb_world::{Memory, Path, Text};
use std::alloc::Global;

/// The folder of a buildpack's version (platform.md, "Buildpacks Directory Layout").
#[tactic(auto, using(crate::proofs::Lengths::folder_within))]
pub fn buildpack_folder(alloc: Global, buildpacks: &Path, key: &Key) -> Result<Path, Memory>
    requires { length buildpacks.now ≤ 4096 }
    ensures folder { IfOk result (λ folder. folder ≡ buildpack_folder buildpacks.now key.now) }
    ensures short { IfOk result (λ folder. length folder ≤ 8192) }
{
    let name = key.id.folder(alloc)?;
    let id_folder = buildpacks.below(alloc, name.as_str())?;
    let folder = id_folder.below(alloc, key.version.as_str())?;
    Ok(folder)
}

/// The name of the file of a buildpack's plan: `<folder>@<version>.toml`.
pub fn plan_name(alloc: Global, key: &Key) -> Result<Text, Memory>
    ensures name { IfOk result (λ name. name ≡ plan_name_of key.now) }
    ensures part { IfOk result (λ name. IsTrue (is_part name)) }
    ensures beside { IfOk result (λ name. IsTrue (is_part (beside name))) }
    ensures long { IfOk result (λ name. 1 < length name) }
{
    // The proof takes from this call what each id keeps to.
    let _id = key.id.as_str();
    let version = key.version.as_str();
    let folder = key.id.folder(alloc)?;
    let mut name = String::from_str(alloc, folder.as_str())?;
    name.push_str("@")?;
    name.push_str(version)?;
    name.push_str(".toml")?;
    Ok(Text::from_string(name))
}
