// The types of processes.
ghost use Rattle.std.specs.Prelude.{◌≡◌, ◌↔◌, IsTrue, IsErrOf, IfOk, false};
ghost use Rattle.std.specs.List.{list_all};
ghost use Rattle.std.specs.Str.{bytes_eq};
ghost use Rattle.std.specs.Hash as fed;
ghost use Rattle.std.specs.Cmp.Rules.{comparing, hashing};
ghost use Rattle.std.proofs.Common.{rules};
ghost use Rattle.cnb_toml.specs.Names.{is_type_byte, is_process_type};

use crate::fault::NameFault;
use cnb_world::Memory;
use std::alloc::Global;
use std::hash::{Hash, Hasher};
use std::marker::Model;

/// A process type (buildpack.md, "launch.toml (TOML)", `processes.type`), which contracts see as its bytes.
#[derive(Drop)]
pub struct ProcType {
    text: String,
}

impl Model for ProcType {
    ghost use Rattle.std.specs.Prelude.{List, ℕ, string_bytes, IsTrue};
    ghost use Rattle.cnb_toml.specs.Names.{is_process_type};

    ghost Value = { List ℕ };

    ghost view = { λ a. string_bytes a.text };

    ghost invariant = { λ a. IsTrue (is_process_type (string_bytes a.text)) };
}

impl PartialEq for ProcType {
    ghost eq = { bytes_eq };

    ghost laws = { Prim.search (comparing, rules) };

    fn eq(&self, other: &ProcType) -> bool {
        self.text.as_str() == other.text.as_str()
    }
}

impl Eq for ProcType {
    ghost laws = { Prim.search (comparing, rules) };
}

impl Hash for ProcType {
    ghost hash_input = { fed.str };

    ghost respects_eq = { Prim.search (hashing, rules) };

    fn hash<H: Hasher>(&self, state: &mut H) {
        self.text.hash(state);
    }
}

const MAX_TYPE: usize = 128;

fn has_type_bytes(name: &[u8]) -> bool
    ensures { result ≡ list_all is_type_byte name.now }
{
    name.iter().all(|byte| byte.is_ascii_alphanumeric()
        || *byte == b'.'
        || *byte == b'_'
        || *byte == b'-')
}

impl ProcType {
    /// Whether bytes are a process type.
    pub fn is_type(name: &[u8]) -> bool
        ensures { result ≡ is_process_type name.now }
    {
        name.len() >= 1
            && name.len() <= MAX_TYPE
            && has_type_bytes(name)
            && name != b".".as_slice()
            && name != b"..".as_slice()
    }

    pub fn parse(alloc: Global, text: &str) -> Result<ProcType, NameFault>
        ensures ok { IfOk result (λ kind. kind ≡ text.now) }
        ensures bad { IsErrOf result NameFault.Bad ↔ (is_process_type text.now ≡ false) }
    {
        if !ProcType::is_type(text.as_bytes()) {
            return Err(NameFault::Bad);
        }
        Ok(ProcType {
            text: String::from_str(alloc, text)?,
        })
    }

    pub fn as_str(&self) -> &str
        ensures text { result.now ≡ self.now }
        ensures is_type { IsTrue (is_process_type self.now) }
    {
        self.text.as_str()
    }

    pub fn copy(&self, alloc: Global) -> Result<ProcType, Memory>
        ensures { IfOk result (λ kind. kind ≡ self.now) }
    {
        Ok(ProcType {
            text: String::from_str(alloc, self.text.as_str())?,
        })
    }
}
