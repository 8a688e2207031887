// Layers' names.
ghost use Rattle.std.specs.Prelude.{◌≡◌, ◌↔◌, IsTrue, IsErrOf, IfOk, false};
ghost use Rattle.std.specs.Str.{bytes_eq};
ghost use Rattle.std.specs.Hash as fed;
ghost use Rattle.std.specs.Cmp.Rules.{comparing, hashing};
ghost use Rattle.std.proofs.Common.{rules};
ghost use Rattle.cnb_world.specs.Path.{is_part};
ghost use Rattle.cnb_toml.specs.Names.{is_reserved_layer, is_layer_name};

use crate::fault::NameFault;
use cnb_world::{Memory, is_part};
use std::alloc::Global;
use std::hash::{Hash, Hasher};
use std::marker::Model;

/// The name of a layer (buildpack.md, "Layer Types"), the same as that of its folder, which contracts see as its bytes.
#[derive(Drop)]
pub struct LayerName {
    text: String,
}

impl Model for LayerName {
    ghost use Rattle.std.specs.Prelude.{List, ℕ, string_bytes, IsTrue};
    ghost use Rattle.cnb_toml.specs.Names.{is_layer_name};

    ghost Value = { List ℕ };

    ghost view = { λ a. string_bytes a.text };

    ghost invariant = { λ a. IsTrue (is_layer_name (string_bytes a.text)) };
}

impl PartialEq for LayerName {
    ghost eq = { bytes_eq };

    ghost laws = { Prim.search (comparing, rules) };

    fn eq(&self, other: &LayerName) -> bool {
        self.text.as_str() == other.text.as_str()
    }
}

impl Eq for LayerName {
    ghost laws = { Prim.search (comparing, rules) };
}

impl Hash for LayerName {
    ghost hash_input = { fed.str };

    ghost respects_eq = { Prim.search (hashing, rules) };

    fn hash<H: Hasher>(&self, state: &mut H) {
        self.text.hash(state);
    }
}

const MAX_LAYER_NAME: usize = 200;

fn is_reserved_layer(name: &[u8]) -> bool
    ensures { result ≡ is_reserved_layer name.now }
{
    name == b"build".as_slice() || name == b"launch".as_slice() || name == b"store".as_slice()
}

impl LayerName {
    /// Whether a text is a layer's name.
    pub fn is_name(text: &str) -> bool
        ensures { result ≡ is_layer_name text.now }
    {
        let name = text.as_bytes();
        name.len() <= MAX_LAYER_NAME && is_part(name) && !is_reserved_layer(name)
    }

    pub fn parse(alloc: Global, text: &str) -> Result<LayerName, NameFault>
        ensures ok { IfOk result (λ name. name ≡ text.now) }
        ensures bad { IsErrOf result NameFault.Bad ↔ (is_layer_name text.now ≡ false) }
    {
        if !LayerName::is_name(text) {
            return Err(NameFault::Bad);
        }
        Ok(LayerName {
            text: String::from_str(alloc, text)?,
        })
    }

    #[tactic(auto, using(crate::proofs::Layers::layer_name_is_part))]
    pub fn as_str(&self) -> &str
        ensures text { result.now ≡ self.now }
        ensures is_name { IsTrue (is_layer_name self.now) }
        ensures is_part { IsTrue (is_part self.now) }
    {
        self.text.as_str()
    }

    pub fn copy(&self, alloc: Global) -> Result<LayerName, Memory>
        ensures { IfOk result (λ name. name ≡ self.now) }
    {
        Ok(LayerName {
            text: String::from_str(alloc, self.text.as_str())?,
        })
    }
}
