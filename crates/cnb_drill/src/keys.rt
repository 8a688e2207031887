// The names of the buildpacks.
ghost use Rattle.std.specs.Prelude.{◌≡◌, ◌<◌, codes, true, IfOk};
ghost use Rattle.cnb_toml.specs.Names.{is_bp_id};
ghost use Rattle.cnb_drill.specs.Buildpacks.{key_of_id, component_key, composite_key, tail_key};

use cnb_toml::{BpId, BpVersion, Key, NameFault};
use cnb_world::Memory;
use std::alloc::Global;

fn id(alloc: Global, name: &str) -> Result<BpId, Memory>
    requires { is_bp_id name.now ≡ true }
    ensures { IfOk result (λ id. id ≡ name.now) }
{
    match BpId::parse(alloc, name) {
        Ok(id) => Ok(id),
        Err(NameFault::Memory) => Err(Memory),
        Err(NameFault::Bad) => unreachable!(),
    }
}

fn version(alloc: Global) -> Result<BpVersion, Memory>
    ensures { IfOk result (λ version. version ≡ codes "1.0.0") }
{
    match BpVersion::parse(alloc, "1.0.0") {
        Ok(version) => Ok(version),
        Err(NameFault::Memory) => Err(Memory),
        Err(NameFault::Bad) => unreachable!(),
    }
}

fn key(alloc: Global, name: &str) -> Result<Key, Memory>
    requires { is_bp_id name.now ≡ true }
    ensures { IfOk result (λ key. key ≡ key_of_id name.now) }
{
    Ok(Key {
        id: id(alloc, name)?,
        version: version(alloc)?,
    })
}

/// The key of a component: `drill/c<column>-<digit>`.
pub(crate) fn component_key(alloc: Global, column: u8, digit: u8) -> Result<Key, Memory>
    requires column { column < 4 }
    requires digit { digit < 8 }
    ensures { IfOk result (λ key. key ≡ component_key column digit) }
{
    let name = format!(in alloc; "drill/c{column}-{digit}")?;
    key(alloc, name.as_str())
}

/// The key of a composite: `drill/k<column>`.
pub(crate) fn composite_key(alloc: Global, column: u8) -> Result<Key, Memory>
    requires { column < 4 }
    ensures { IfOk result (λ key. key ≡ composite_key column) }
{
    let name = format!(in alloc; "drill/k{column}")?;
    key(alloc, name.as_str())
}

/// The key of the last component: `drill/tail`.
pub(crate) fn tail_key(alloc: Global) -> Result<Key, Memory>
    ensures { IfOk result (λ key. key ≡ tail_key) }
{
    key(alloc, "drill/tail")
}
