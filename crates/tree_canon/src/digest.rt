// Digests of bytes.
ghost use Rattle.std.specs.Prelude.{◌≡◌, ◌↔◌, IsTrue, IfOk, length, IsNone, IfSome, true, false};
ghost use Rattle.sha2.specs.Sha256.{sha256};
ghost use Rattle.hex.specs.Hex.{encode_lower};
ghost use Rattle.tree_canon.specs.Spelling.{spelling_of};
ghost use Rattle.tree_canon.specs.Digest.{is_digest_text, is_lower_digit};
ghost use Rattle.std.specs.List.{list_all};

use crate::spelling::TreePieces;
use crate::tree::Tree;
use cnb_world::{Memory, Text};
use hex::FromHex;
use sha2::{Digest as _, Sha256};
use std::alloc::Global;
use std::marker::Model;

/// The SHA-256 of bytes: of a tree, that of its spelling. Contracts see its 32 bytes.
#[derive(Clone, Copy, Debug, PartialEq, Eq)]
pub struct Digest {
    bytes: [u8; 32],
}

impl Model for Digest {
    ghost use Rattle.std.specs.Prelude.{List, ℕ};

    ghost Value = { List ℕ };

    ghost view = { λ a. a.bytes };

    ghost inverse = { λ bytes. record { bytes = bytes } };
}

impl Digest {
    /// The digest of bytes.
    pub fn of(bytes: &[u8]) -> Digest
        ensures { result ≡ sha256 bytes.now }
    {
        Digest {
            bytes: Sha256::digest(bytes),
        }
    }

    /// The digest of a tree, whose spelling is taken in pieces.
    pub fn of_tree(alloc: Global, tree: &Tree) -> Result<Digest, Memory>
        ensures { IfOk result (λ digest. digest ≡ sha256 (spelling_of tree.now)) }
    {
        let mut pieces = TreePieces::new(alloc, tree)?;
        let mut hasher = Sha256::new();
        let mut piece = pieces.next(alloc)?;
        while !piece.as_slice().is_empty() {
            hasher.update(piece.as_slice());
            piece = pieces.next(alloc)?;
        }
        Ok(Digest::from_bytes(hasher.finalize()))
    }

    /// The digest that these 32 bytes are.
    pub fn from_bytes(bytes: [u8; 32]) -> Digest
        ensures { result ≡ bytes }
    {
        Digest { bytes }
    }

    /// The digest that 64 digits of `0` to `9` and `a` to `f` write.
    pub fn parse(text: &str) -> Option<Digest>
        ensures none { IsNone result ↔ (is_digest_text text.now ≡ false) }
        ensures read { IfSome result (λ digest. encode_lower digest ≡ text.now) }
    {
        if !is_digest_text(text.as_bytes()) {
            return None;
        }
        match <[u8; 32] as FromHex>::from_hex(text) {
            Ok(bytes) => Some(Digest { bytes }),
            Err(_) => None,
        }
    }

    /// The digest as 64 digits.
    pub fn text(&self, alloc: Global) -> Result<Text, Memory>
        ensures text { IfOk result (λ text. text ≡ encode_lower self.now) }
        ensures digits { is_digest_text (encode_lower self.now) ≡ true }
    {
        lower_text(alloc, &self.bytes)
    }

    /// Whether two digests are the same.
    pub fn same(&self, other: &Digest) -> bool
        ensures { IsTrue result ↔ (self.now ≡ other.now) }
    {
        self.bytes == other.bytes
    }

    /// The 32 bytes.
    pub fn bytes(&self) -> &[u8; 32]
        ensures { result.now ≡ self.now }
    {
        &self.bytes
    }
}

fn lower_text(alloc: Global, bytes: &[u8]) -> Result<Text, Memory>
    requires { length bytes.now ≡ 32 }
    ensures text { IfOk result (λ text. text ≡ encode_lower bytes.now) }
    ensures digits { is_digest_text (encode_lower bytes.now) ≡ true }
{
    Ok(Text::from_string(hex::encode(alloc, bytes)?))
}

fn is_digest_text(text: &[u8]) -> bool
    ensures { result ≡ is_digest_text text.now }
{
    text.len() == 64 && has_lower_digits(text)
}

fn has_lower_digits(text: &[u8]) -> bool
    ensures { result ≡ list_all is_lower_digit text.now }
{
    text.iter()
        .all(|b| (48 <= *b && *b <= 57) || (97 <= *b && *b <= 102))
}
