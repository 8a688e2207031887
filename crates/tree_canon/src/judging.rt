// Bytes that were kept under a digest.
ghost use Rattle.std.specs.Prelude.{◌≡◌, ◌++◌, [], ℕ, List as Seq, IfOk, OnOk};
ghost use Rattle.tree_canon.specs.Judging.{HasTaken, IsJudged};

use crate::decoder::Decoder;
use crate::digest::Digest;
use crate::fault::{DecodeFault, Reason};
use crate::tree::Tree;
use cnb_world::Memory;
use sha2::{Digest as _, Sha256};
use std::alloc::Global;

/// What bytes are that were kept under a digest: a tree, or damaged. `asked` is the digest that they were kept under
/// and `found` their own. Where these are the same, the bytes spell no tree, and `bad` says why.
#[derive(Drop)]
pub enum Judged {
    Tree(Tree),
    Damaged {
        asked: Digest,
        found: Digest,
        bad: Option<Reason>,
    },
}

/// Judges bytes that come in pieces. It keeps none of them but what the tree holds.
#[derive(Drop)]
pub struct Judging {
    hasher: Sha256,
    decoder: Decoder,
}

impl Judging {
    pub fn new(alloc: Global) -> Result<Judging, Memory>
        ensures { IfOk result (λ judging. HasTaken judging []) }
    {
        Ok(Judging {
            hasher: Sha256::new(),
            decoder: Decoder::new(alloc)?,
        })
    }

    /// Takes the next bytes.
    pub fn take(&mut self, piece: &[u8]) -> Result<(), Memory>
        ensures { OnOk result ((bytes : Seq ℕ) → HasTaken self.old bytes → HasTaken self.new (bytes ++ piece.now)) }
    {
        self.hasher.update(piece);
        match self.decoder.feed(piece) {
            Ok(()) => Ok(()),
            Err(DecodeFault::Bad { at: _, reason: _ }) => Ok(()),
            Err(DecodeFault::Memory) => Err(Memory),
        }
    }

    /// What all bytes are that were kept under a digest.
    pub fn end(self, digest: &Digest) -> Result<Judged, Memory>
        ensures { (bytes : Seq ℕ) → HasTaken self bytes → IfOk result (IsJudged digest.now bytes) }
    {
        let Judging { hasher, decoder } = self;
        let found = Digest::from_bytes(hasher.finalize());
        if !found.same(digest) {
            return Ok(damaged(digest, found, None));
        }
        match decoder.finish() {
            Ok(tree) => Ok(Judged::Tree(tree)),
            Err(DecodeFault::Bad { at: _, reason }) => Ok(damaged(digest, found, Some(reason))),
            Err(DecodeFault::Memory) => Err(Memory),
        }
    }
}

fn damaged(asked: &Digest, found: Digest, bad: Option<Reason>) -> Judged
    ensures { result ≡ Judged.Damaged asked.now found bad }
{
    Judged::Damaged {
        asked: *asked,
        found,
        bad,
    }
}

/// Judges bytes that were kept under a digest.
pub fn judge(alloc: Global, digest: &Digest, bytes: &[u8]) -> Result<Judged, Memory>
    ensures { IfOk result (IsJudged digest.now bytes.now) }
{
    let mut judging = Judging::new(alloc)?;
    judging.take(bytes)?;
    judging.end(digest)
}
