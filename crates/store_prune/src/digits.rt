// Digests that are told apart by their digits.
ghost use Rattle.std.specs.Prelude.{◌≡◌, ◌++◌, ◌∷◌, [], List as Seq, ℕ, nat_lt, not, IfOk, IsTrue, OnOk, map};
ghost use Rattle.std.specs.Hash as fed;
ghost use Rattle.std.specs.HashSet.{contains};
ghost use Rattle.std.specs.List.{filter, list_all};
ghost use Rattle.std.specs.Str.{bytes_eq};
ghost use Rattle.std.specs.Cmp.Rules.{comparing, hashing};
ghost use Rattle.std.proofs.Common.{rules};
ghost use Rattle.cnb_toml.specs.Distinct.{HasKeysOf};
ghost use Rattle.hex.specs.Hex.{encode_lower};
ghost use Rattle.image_docs.specs.DigestText.{is_digest};
ghost use Rattle.store_prune.specs.Digests.{distinct, tree_digest, unnamed, with_digest};

use cnb_toml::see_key;
use cnb_world::{List, Memory};
use image_docs::Row;
use std::alloc::Global;
use std::collections::HashSet;
use std::hash::{Hash, Hasher};
use std::marker::Model;
use tree_canon::Digest;

/// The digits of a digest, as a key.
#[derive(Drop)]
pub(crate) struct Digits {
    text: String,
}

impl Model for Digits {
    ghost use Rattle.std.specs.Prelude.{List, ℕ, string_bytes};

    ghost Value = { List ℕ };

    ghost view = { λ a. string_bytes a.text };
}

impl PartialEq for Digits {
    ghost eq = { bytes_eq };

    ghost laws = { Prim.search (comparing, rules) };

    fn eq(&self, other: &Digits) -> bool {
        self.text.as_str() == other.text.as_str()
    }
}

impl Eq for Digits {
    ghost laws = { Prim.search (comparing, rules) };
}

impl Hash for Digits {
    ghost hash_input = { fed.str };

    ghost respects_eq = { Prim.search (hashing, rules) };

    fn hash<H: Hasher>(&self, state: &mut H) {
        self.text.hash(state);
    }
}

fn digits_of(alloc: Global, digest: &Digest) -> Result<Digits, Memory>
    ensures { IfOk result (λ digits. digits ≡ encode_lower digest.now) }
{
    let text = digest.text(alloc)?;
    Ok(Digits {
        text: String::from_str(alloc, text.as_str())?,
    })
}

// What the type of a digest's bytes says of them.
fn are_sized(bytes: &[u8; 32])
    ensures { IsTrue (is_digest bytes.now) }
{
    are_bytes(bytes.as_slice());
}

// That each byte of a slice is below 256 is known where it is read.
fn are_bytes(bytes: &[u8])
    ensures { IsTrue (list_all (λ byte. nat_lt byte 256) bytes.now) }
{
    let _bytes = bytes;
}

/// The digest that a file's name writes.
pub(crate) fn tree_digest(name: &str) -> Option<Digest>
    ensures { result ≡ tree_digest name.now }
{
    match Digest::parse(name) {
        Some(digest) => {
            are_sized(digest.bytes());
            Some(digest)
        }
        None => None,
    }
}

// Adds the digits of a digest.
#[tactic(auto, using(cnb_toml::specs::DistinctLaws::one_more_seen))]
fn add_digits(alloc: Global, seen: &mut HashSet<Digits>, digest: &Digest) -> Result<(), Memory>
    ensures { (digests : Seq (Seq ℕ)) → HasKeysOf bytes_eq encode_lower digests seen.old
        → OnOk result (HasKeysOf bytes_eq encode_lower (digests ++ digest.now ∷ []) seen.new) }
{
    let digits = digits_of(alloc, digest)?;
    see_key(seen, digits)?;
    Ok(())
}

// The digits of some digests, as a set.
#[tactic(auto, using(cnb_toml::specs::DistinctLaws::none_seen))]
fn all_digits(alloc: Global, digests: List<Digest>) -> Result<HashSet<Digits>, Memory>
    ensures { IfOk result (HasKeysOf bytes_eq encode_lower digests) }
{
    let mut seen = HashSet::new(alloc);
    for digest in digests.into_vec() {
        add_digits(alloc, &mut seen, &digest)?;
    }
    Ok(seen)
}

// Those whose digits aren't in the set, in their order.
fn those_unless(
    alloc: Global,
    named: &HashSet<Digits>,
    digests: &[Digest],
) -> Result<List<Digest>, Memory>
    ensures { IfOk result (λ found. found
        ≡ filter (λ one. not (contains bytes_eq named.now (encode_lower one))) digests.now) }
{
    let mut found = List::new(alloc);
    for digest in digests {
        let digits = digits_of(alloc, digest)?;
        if !named.contains(&digits) {
            found.push(*digest)?;
        }
    }
    Ok(found)
}

/// Those that aren't named, in their order. Each is looked up in a set.
pub(crate) fn unnamed(
    alloc: Global,
    named: List<Digest>,
    digests: &[Digest],
) -> Result<List<Digest>, Memory>
    ensures { IfOk result (λ found. found ≡ unnamed named digests.now) }
{
    let digits = all_digits(alloc, named)?;
    let found = those_unless(alloc, &digits, digests)?;
    Ok(found)
}

// Whether a digest is the first of its digits, which are seen from then on.
#[tactic(auto, using(cnb_toml::specs::DistinctLaws::one_more_seen))]
fn is_first(alloc: Global, seen: &mut HashSet<Digits>, digest: &Digest) -> Result<bool, Memory>
    ensures first { IfOk result (λ first. first ≡ not (contains bytes_eq seen.old (encode_lower digest.now))) }
    ensures seen { (digests : Seq (Seq ℕ)) → HasKeysOf bytes_eq encode_lower digests seen.old
        → OnOk result (HasKeysOf bytes_eq encode_lower (with_digest digests digest.now) seen.new) }
{
    let digits = digits_of(alloc, digest)?;
    if seen.contains(&digits) {
        return Ok(false);
    }
    see_key(seen, digits)?;
    Ok(true)
}

fn add_first(
    alloc: Global,
    found: &mut List<Digest>,
    seen: &mut HashSet<Digits>,
    digest: &Digest,
) -> Result<(), Memory>
    requires { HasKeysOf bytes_eq encode_lower found.old seen.old }
    ensures digests { OnOk result (found.new ≡ with_digest found.old digest.now) }
    ensures seen { OnOk result (HasKeysOf bytes_eq encode_lower found.new seen.new) }
{
    if is_first(alloc, seen, digest)? {
        found.push(*digest)
    } else {
        Ok(())
    }
}

// The digests of rows.
fn row_digests(alloc: Global, rows: &[Row]) -> Result<List<Digest>, Memory>
    ensures { IfOk result (λ digests. digests ≡ map (λ row. row.digest) rows.now) }
{
    let mut digests = List::new(alloc);
    for row in rows {
        digests.push(row.digest)?;
    }
    Ok(digests)
}

// Each digest once, at its first place.
#[tactic(auto, using(cnb_toml::specs::DistinctLaws::none_seen))]
fn distinct(alloc: Global, digests: List<Digest>) -> Result<List<Digest>, Memory>
    ensures { IfOk result (λ found. found ≡ distinct digests) }
{
    let mut found = List::new(alloc);
    let mut seen = HashSet::new(alloc);
    for digest in digests.into_vec() {
        add_first(alloc, &mut found, &mut seen, &digest)?;
    }
    Ok(found)
}

/// The digests of an image's rows, each once, at its first place.
pub(crate) fn distinct_digests(alloc: Global, rows: &[Row]) -> Result<List<Digest>, Memory>
    ensures { IfOk result (λ found. found ≡ distinct (map (λ row. row.digest) rows.now)) }
{
    let digests = row_digests(alloc, rows)?;
    distinct(alloc, digests)
}
