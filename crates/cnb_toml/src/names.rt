// Buildpacks' names.
ghost use Rattle.std.specs.Prelude.{◌≡◌, ◌↔◌, ℕ, List, IsTrue, IsErrOf, IfOk, Ok, true, false, string_bytes};
ghost use Rattle.semver.specs.Identifiers.{parts_of};
ghost use Rattle.std.specs.List.{list_all};
ghost use Rattle.std.specs.Str.{bytes_eq};
ghost use Rattle.std.specs.Hash as fed;
ghost use Rattle.std.specs.Cmp.Rules.{comparing, hashing};
ghost use Rattle.std.proofs.Common.{rules};
ghost use Rattle.cnb_world.specs.Path.{is_part};
ghost use Rattle.cnb_toml.specs.Names.{is_id_byte, is_reserved, is_bp_id, is_release, is_bp_version, IsJoinedNumbers};
ghost use Rattle.cnb_toml.specs.Names.{folder_of};

use crate::fault::NameFault;
use cnb_world::{Memory, Text};
use semver::Version;
use std::alloc::Global;
use std::hash::{Hash, Hasher};
use std::marker::Model;

/// A buildpack's id (buildpack.md, "buildpack.toml (TOML)", `buildpack.id`), which contracts see as its bytes.
#[derive(Drop)]
pub struct BpId {
    text: String,
}

impl Model for BpId {
    ghost use Rattle.std.specs.Prelude.{List, ℕ, string_bytes, IsTrue};
    ghost use Rattle.cnb_toml.specs.Names.{is_bp_id};

    ghost Value = { List ℕ };

    ghost view = { λ a. string_bytes a.text };

    ghost invariant = { λ a. IsTrue (is_bp_id (string_bytes a.text)) };
}

impl PartialEq for BpId {
    ghost eq = { bytes_eq };

    ghost laws = { Prim.search (comparing, rules) };

    fn eq(&self, other: &BpId) -> bool {
        self.text.as_str() == other.text.as_str()
    }
}

impl Eq for BpId {
    ghost laws = { Prim.search (comparing, rules) };
}

impl Hash for BpId {
    ghost hash_input = { fed.str };

    ghost respects_eq = { Prim.search (hashing, rules) };

    fn hash<H: Hasher>(&self, state: &mut H) {
        self.text.hash(state);
    }
}

/// A buildpack's version: three numbers joined by dots, which contracts see as its bytes.
#[derive(Drop)]
pub struct BpVersion {
    text: String,
}

impl Model for BpVersion {
    ghost use Rattle.std.specs.Prelude.{List, ℕ, string_bytes, IsTrue};
    ghost use Rattle.cnb_toml.specs.Names.{is_bp_version};

    ghost Value = { List ℕ };

    ghost view = { λ a. string_bytes a.text };

    ghost invariant = { λ a. IsTrue (is_bp_version (string_bytes a.text)) };
}

impl PartialEq for BpVersion {
    ghost eq = { bytes_eq };

    ghost laws = { Prim.search (comparing, rules) };

    fn eq(&self, other: &BpVersion) -> bool {
        self.text.as_str() == other.text.as_str()
    }
}

impl Eq for BpVersion {
    ghost laws = { Prim.search (comparing, rules) };
}

impl Hash for BpVersion {
    ghost hash_input = { fed.str };

    ghost respects_eq = { Prim.search (hashing, rules) };

    fn hash<H: Hasher>(&self, state: &mut H) {
        self.text.hash(state);
    }
}

/// What tells one buildpack from another: its id and its version.
#[derive(PartialEq, Eq, Hash, Drop)]
pub struct Key {
    pub id: BpId,
    pub version: BpVersion,
}

const MAX_ID: usize = 128;

fn has_id_bytes(text: &[u8]) -> bool
    ensures { result ≡ list_all is_id_byte text.now }
{
    text.iter().all(|b| b.is_ascii_alphanumeric() || *b == b'.' || *b == b'/' || *b == b'-')
}

fn is_reserved(text: &str) -> bool
    ensures { result ≡ is_reserved text.now }
{
    text == "app" || text == "config" || text == "." || text == ".."
}

fn is_release(version: &Version) -> bool
    ensures { result ≡ is_release (Ok (parts_of version.now)) }
{
    version.pre.is_empty() && version.build.is_empty()
}

fn folder_text(alloc: Global, id: &str) -> Result<String, Memory>
    requires { IsTrue (is_bp_id id.now) }
    ensures { IfOk result (λ folder. string_bytes folder ≡ folder_of id.now) }
{
    let mut folder = String::new(alloc);
    for byte in id.as_bytes() {
        folder.push(if *byte == b'/' { '_' } else { *byte as char })?;
    }
    Ok(folder)
}

impl BpId {
    /// Whether a text is an id.
    pub fn is_id(text: &str) -> bool
        ensures { result ≡ is_bp_id text.now }
    {
        !text.is_empty()
            && text.len() <= MAX_ID
            && has_id_bytes(text.as_bytes())
            && !is_reserved(text)
    }

    pub fn parse(alloc: Global, text: &str) -> Result<BpId, NameFault>
        ensures ok { IfOk result (λ id. id ≡ text.now) }
        ensures bad { IsErrOf result NameFault.Bad ↔ (is_bp_id text.now ≡ false) }
    {
        if !BpId::is_id(text) {
            return Err(NameFault::Bad);
        }
        Ok(BpId {
            text: String::from_str(alloc, text)?,
        })
    }

    pub fn as_str(&self) -> &str
        ensures text { result.now ≡ self.now }
        ensures is_id { IsTrue (is_bp_id self.now) }
    {
        self.text.as_str()
    }

    pub fn copy(&self, alloc: Global) -> Result<BpId, Memory>
        ensures { IfOk result (λ id. id ≡ self.now) }
    {
        Ok(BpId {
            text: String::from_str(alloc, self.text.as_str())?,
        })
    }

    /// The name of the id's folders: the id with each `/` as `_`. Distinct ids have distinct folders.
    #[tactic(auto, using(crate::proofs::Ids::folder_is_part, crate::proofs::Ids::folder_distinct))]
    pub fn folder(&self, alloc: Global) -> Result<Text, Memory>
        ensures ok { IfOk result (λ folder. folder ≡ folder_of self.now) }
        ensures part { IsTrue (is_part (folder_of self.now)) }
        ensures distinct { (other : List ℕ) → IsTrue (is_bp_id other) → folder_of other ≡ folder_of self.now
            → other ≡ self.now }
    {
        Ok(Text::from_string(folder_text(alloc, self.text.as_str())?))
    }
}

impl BpVersion {
    #[tactic(auto, using(crate::proofs::Versions::version_numbers))]
    pub fn parse(alloc: Global, text: &str) -> Result<BpVersion, NameFault>
        ensures ok { IfOk result (λ version. version ≡ text.now) }
        ensures bad { IsErrOf result NameFault.Bad ↔ (is_bp_version text.now ≡ false) }
        ensures numbers { IsTrue (is_bp_version text.now) ↔ IsJoinedNumbers text.now }
    {
        match Version::parse(alloc, text) {
            Ok(version) if is_release(&version) => Ok(BpVersion {
                text: String::from_str(alloc, text)?,
            }),
            _ => Err(NameFault::Bad),
        }
    }

    #[tactic(auto, using(crate::proofs::Versions::version_is_part))]
    pub fn as_str(&self) -> &str
        ensures text { result.now ≡ self.now }
        ensures is_version { IsTrue (is_bp_version self.now) }
        ensures is_part { IsTrue (is_part self.now) }
    {
        self.text.as_str()
    }

    pub fn copy(&self, alloc: Global) -> Result<BpVersion, Memory>
        ensures { IfOk result (λ version. version ≡ self.now) }
    {
        Ok(BpVersion {
            text: String::from_str(alloc, self.text.as_str())?,
        })
    }
}
