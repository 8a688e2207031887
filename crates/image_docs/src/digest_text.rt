// Digests in documents.
ghost use Rattle.std.specs.Prelude.{◌≡◌, nat_lt, true, IsTrue};
ghost use Rattle.std.specs.List.{list_all};
ghost use Rattle.cnb_toml.specs.Reading.{Answers};
ghost use Rattle.cnb_toml.specs.WrittenLaws.{zero_within};
ghost use Rattle.image_docs.specs.DigestText.{digest_in, digest_of, digest_data, is_digest};
ghost use Rattle.image_docs.specs.DigestTextLaws.{digest_read};
ghost use Rattle.std.proofs.Common.{refl};

use cnb_toml::{DocFault, Form, Written};
use cnb_world::Memory;
use std::alloc::Global;
use toml::Value;
use tree_canon::Digest;

/// The texts of digests, as values.
pub struct DigestText;

impl Form for DigestText {
    type Value = Digest;

    ghost value_of = { digest_of };

    fn read(alloc: Global, value: &Value) -> Result<Digest, DocFault> {
        match value.as_str() {
            Some(text) => digest_in(alloc, text),
            None => Err(DocFault::wrong(alloc)),
        }
    }
}

impl Written for DigestText {
    ghost data_of = { digest_data };

    ghost is_typed = { is_digest };

    ghost is_sound = { λ _. true };

    ghost nesting = { 0 };

    fn write(alloc: Global, digest: &Digest) -> Result<Value, Memory> {
        are_sized(digest.bytes());
        let text = digest.text(alloc)?;
        let value = Value::string(alloc, text.as_str())?;
        Ok(value)
    }

    ghost reads_back = { λ digest typed sound. digest_read digest typed };

    ghost dates = { λ digest. refl };

    ghost within = { λ digest sound. zero_within 0 };
}

fn digest_in(alloc: Global, text: &str) -> Result<Digest, DocFault>
    ensures { Answers result (digest_in text.now) }
{
    match Digest::parse(text) {
        Some(digest) => {
            are_sized(digest.bytes());
            Ok(digest)
        }
        None => Err(DocFault::wrong(alloc)),
    }
}

// What the type of a digest's bytes says of them.
fn are_sized(bytes: &[u8; 32])
    ensures { IsTrue (is_digest bytes.now) }
{
    are_bytes(bytes.as_slice());
}

// That each byte of a slice is below 256 is known where it is read.
fn are_bytes(bytes: &[u8])
    ensures { IsTrue (list_all (λ byte. nat_lt byte 256) bytes.now) }
{
    let _bytes = bytes;
}
