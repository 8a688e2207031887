// Images' names, and those of systems and architectures.
ghost use Rattle.std.specs.Prelude.{◌≡◌, ◌↔◌, IsTrue, IsErrOf, IfOk, false};
ghost use Rattle.std.specs.List.{list_all};
ghost use Rattle.std.specs.Str.{bytes_eq};
ghost use Rattle.std.specs.Hash as fed;
ghost use Rattle.std.specs.Cmp.Rules.{comparing, hashing};
ghost use Rattle.std.proofs.Common.{rules};
ghost use Rattle.cnb_toml.specs.Names.{is_first_byte, is_image_byte, has_image_bytes, is_image_name, is_target_name};

use crate::fault::NameFault;
use cnb_world::Memory;
use std::alloc::Global;
use std::hash::{Hash, Hasher};
use std::marker::Model;

/// The name of an image, which contracts see as its bytes.
#[derive(Drop)]
pub struct ImageName {
    text: String,
}

impl Model for ImageName {
    ghost use Rattle.std.specs.Prelude.{List, ℕ, string_bytes, IsTrue};
    ghost use Rattle.cnb_toml.specs.Names.{is_image_name};

    ghost Value = { List ℕ };

    ghost view = { λ a. string_bytes a.text };

    ghost invariant = { λ a. IsTrue (is_image_name (string_bytes a.text)) };
}

impl PartialEq for ImageName {
    ghost eq = { bytes_eq };

    ghost laws = { Prim.search (comparing, rules) };

    fn eq(&self, other: &ImageName) -> bool {
        self.text.as_str() == other.text.as_str()
    }
}

impl Eq for ImageName {
    ghost laws = { Prim.search (comparing, rules) };
}

impl Hash for ImageName {
    ghost hash_input = { fed.str };

    ghost respects_eq = { Prim.search (hashing, rules) };

    fn hash<H: Hasher>(&self, state: &mut H) {
        self.text.hash(state);
    }
}

const MAX_IMAGE_NAME: usize = 128;

const MAX_TARGET_NAME: usize = 64;

fn is_image_byte(byte: u8) -> bool
    ensures { result ≡ is_image_byte byte }
{
    byte.is_ascii_lowercase()
        || byte.is_ascii_digit()
        || byte == b'.'
        || byte == b'_'
        || byte == b'-'
}

fn is_first_byte(byte: u8) -> bool
    ensures { result ≡ is_first_byte byte }
{
    byte.is_ascii_lowercase() || byte.is_ascii_digit()
}

fn are_image_bytes(bytes: &[u8]) -> bool
    ensures { result ≡ list_all is_image_byte bytes.now }
{
    bytes.iter().all(|byte| is_image_byte(*byte))
}

fn has_image_bytes(name: &[u8]) -> bool
    ensures { result ≡ has_image_bytes name.now }
{
    match name {
        [] => false,
        [first, rest @ ..] => is_first_byte(*first) && are_image_bytes(rest),
    }
}

/// Whether a text names an operating system or an architecture (platform.md, "Targets"): an image's name of at most 64
/// bytes.
pub fn is_target_name(text: &str) -> bool
    ensures { result ≡ is_target_name text.now }
{
    text.len() <= MAX_TARGET_NAME && has_image_bytes(text.as_bytes())
}

impl ImageName {
    /// Whether a text is an image's name.
    pub fn is_name(text: &str) -> bool
        ensures { result ≡ is_image_name text.now }
    {
        text.len() <= MAX_IMAGE_NAME && has_image_bytes(text.as_bytes())
    }

    pub fn parse(alloc: Global, text: &str) -> Result<ImageName, NameFault>
        ensures ok { IfOk result (λ name. name ≡ text.now) }
        ensures bad { IsErrOf result NameFault.Bad ↔ (is_image_name text.now ≡ false) }
    {
        if !ImageName::is_name(text) {
            return Err(NameFault::Bad);
        }
        Ok(ImageName {
            text: String::from_str(alloc, text)?,
        })
    }

    pub fn as_str(&self) -> &str
        ensures text { result.now ≡ self.now }
        ensures is_name { IsTrue (is_image_name self.now) }
    {
        self.text.as_str()
    }

    pub fn copy(&self, alloc: Global) -> Result<ImageName, Memory>
        ensures { IfOk result (λ name. name ≡ self.now) }
    {
        Ok(ImageName {
            text: String::from_str(alloc, self.text.as_str())?,
        })
    }
}
