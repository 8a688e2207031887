// The bytes of a tree, which are read in their order.
ghost use Rattle.std.specs.Prelude.{◌≡◌, ◌≤◌, ◌↔◌, ◌+◌, ◌++◌, ◌∷◌, [], ℕ, List as Seq, Option, IfErr, IfOk, IsTrue};
ghost use Rattle.std.specs.Prelude.{OnOk, Some, length, true};
ghost use Rattle.std.specs.Int.{from_be_bytes, to_be_bytes, w16, w32, w64};
ghost use Rattle.sha2.specs.Hashers.{Holds256};
ghost use Rattle.cnb_world.specs.Path.{is_part};
ghost use Rattle.cnb_world.specs.Tree.{Tree};
ghost use Rattle.tree_canon.specs.Names.{is_name, is_text};
ghost use Rattle.tree_canon.specs.Rules.{first_byte};
ghost use Rattle.tree_canon.specs.Spelling.{magic, name_bytes};
ghost use Rattle.steps.specs.Outside.{Seen, seen};
ghost use Rattle.steps.specs.Causes.{CountsFiles, Decided};
ghost use Rattle.tree_store.specs.Ahead.{Ahead, HasDigest, Reading};
ghost use Rattle.tree_store.specs.Answers.{cause_of, is_free};
ghost use Rattle.tree_store.specs.Origin.{BlamesRead, Leaves, OriginState};
ghost use Rattle.tree_store.specs.Source.{source_seen};
ghost use Rattle.tree_store.specs.Taking.{TakesBytes};

use crate::fault::StoreFault;
use crate::origin::Origin;
use cnb_world::{Bytes, Text, World, is_part};
use sha2::{Digest as _, Sha256};
use std::alloc::Global;
use std::{mem, str};
use tree_canon::{Digest, Reason};

/// The most bytes of a spelling.
const MAX_LENGTH: u64 = 1073741824;

fn first_byte(field: &[u8]) -> u8
    ensures { result ≡ first_byte field.now }
{
    match field {
        [b, ..] => *b,
        _ => 0,
    }
}

/// The number of two bytes.
fn u16_of(field: &[u8]) -> u16
    ensures value { length field.now ≡ 2 → result ≡ from_be_bytes w16 field.now }
    ensures bytes { length field.now ≡ 2 → to_be_bytes w16 result ≡ field.now }
{
    match field {
        [a, b] => u16::from_be_bytes([*a, *b]),
        _ => 0,
    }
}

/// The number of four bytes.
pub(crate) fn u32_of(field: &[u8]) -> u32
    ensures value { length field.now ≡ 4 → result ≡ from_be_bytes w32 field.now }
    ensures bytes { length field.now ≡ 4 → to_be_bytes w32 result ≡ field.now }
{
    match field {
        [a, b, c, d] => u32::from_be_bytes([*a, *b, *c, *d]),
        _ => 0,
    }
}

/// The number of eight bytes.
pub(crate) fn u64_of(field: &[u8]) -> u64
    ensures value { length field.now ≡ 8 → result ≡ from_be_bytes w64 field.now }
    ensures bytes { length field.now ≡ 8 → to_be_bytes w64 result ≡ field.now }
{
    match field {
        [a, b, c, d, e, f, g, h] => u64::from_be_bytes([*a, *b, *c, *d, *e, *f, *g, *h]),
        _ => 0,
    }
}

/// Reads the bytes of a tree one field after another. It holds a piece of them, and hashes those that were taken.
#[derive(Drop)]
pub(crate) struct KeptBytes<O> {
    origin: O,
    digest: Digest,
    hasher: Sha256,
    at: u64,
    piece: Bytes,
    used: usize,
}

impl<O: Origin> KeptBytes<O> {
    /// The bytes of the root node, which stand behind the first five of the tree's.
    pub(crate) fn new(alloc: Global, origin: O, digest: &Digest) -> KeptBytes<O>
        ensures origin { result.origin ≡ origin }
        ensures digest { result.digest ≡ digest.now }
        ensures at { result.at ≡ 5 }
        ensures piece { result.piece ≡ [] }
        ensures hashed { Holds256 result.hasher magic }
    {
        let mut hasher = Sha256::new();
        hasher.update(b"CNBT\x01");
        KeptBytes {
            origin,
            digest: *digest,
            hasher,
            at: 5,
            piece: Bytes::from_vec(Vec::new(alloc)),
            used: 0,
        }
    }

    /// Sees that the bytes that were taken have the digest. Where they don't, they were changed since they were judged.
    pub(crate) fn end(&mut self) -> Result<(), StoreFault>
        ensures digest { (bytes : Seq ℕ) → Holds256 self.old.hasher bytes → HasDigest self.old.digest bytes result }
        ensures decided { IfErr result (λ fault. cause_of fault ≡ Decided) }
        ensures stays { self.new.origin ≡ self.old.origin }
    {
        let hasher = mem::replace(&mut self.hasher, Sha256::new());
        let found = Digest::from_bytes(hasher.finalize());
        if found.same(&self.digest) {
            Ok(())
        } else {
            Err(StoreFault::Damaged {
                asked: self.digest,
                found,
                bad: None,
            })
        }
    }

    /// What was read from.
    pub(crate) fn into_origin(self) -> O
        ensures { result ≡ self.origin }
    {
        let KeptBytes {
            origin,
            digest: _,
            hasher: _,
            at: _,
            piece: _,
            used: _,
        } = self;
        origin
    }

    /// The refusal of bytes that are no longer the ones that were judged.
    pub(crate) fn broken(&self, reason: Reason) -> StoreFault
        ensures { result ≡ StoreFault.Damaged self.now.digest self.now.digest (Some reason) }
    {
        StoreFault::Damaged {
            asked: self.digest,
            found: self.digest,
            bad: Some(reason),
        }
    }

    fn holds(&self, len: usize) -> bool
        ensures { IsTrue result ↔ (self.now.used + len ≤ length self.now.piece) }
    {
        let held = self.piece.as_slice().len();
        self.used <= held && len <= held - self.used
    }

    // Holds so many of the next bytes.
    fn fill<W: World>(&mut self, alloc: Global, world: &mut W, len: usize) -> Result<(), StoreFault>
        requires { len ≤ 65536 }
        ensures leaves { (path : Seq ℕ)
            → Leaves path (O.state self.old.origin) (seen W.World world.old)
            result (O.state self.new.origin) (seen W.World world.new) }
        ensures reads { (bytes : Seq ℕ) (folders : Seq (Seq ℕ)) → len ≤ length bytes
            → Reading (λ done. Unit {0}) bytes bytes folders
            (source_seen O.state self.old) (seen W.World world.old)
            result (source_seen O.state self.new) (seen W.World world.new) }
        ensures held { OnOk result (self.new.used + len ≤ length self.new.piece) }
        ensures takes { OnOk result (TakesBytes [] (source_seen O.state self.old) (seen W.World world.old)
            (source_seen O.state self.new) (seen W.World world.new)) }
    {
        if self.holds(len) {
            return Ok(());
        }
        self.piece = self.origin.piece(alloc, world, &self.digest, self.at)?;
        self.used = 0;
        if self.holds(len) {
            Ok(())
        } else {
            Err(self.broken(Reason::Short))
        }
    }

    // Takes so many of the bytes that are held.
    fn cut(&mut self, alloc: Global, len: usize) -> Result<Bytes, StoreFault>
        requires len { len ≤ 65536 }
        requires held { self.old.used + len ≤ length self.old.piece }
        ensures value { (files : Option Tree) (field rest : Seq ℕ) → length field ≡ len
            → Ahead (source_seen O.state self.old) files (field ++ rest) → IfOk result (λ read. read ≡ field) }
        ensures ahead { (files : Option Tree) (field rest : Seq ℕ) → length field ≡ len
            → Ahead (source_seen O.state self.old) files (field ++ rest)
            → OnOk result (Ahead (source_seen O.state self.new) files rest) }
        ensures free { (files : Option Tree) (bytes : Seq ℕ) → len ≤ length bytes
            → Ahead (source_seen O.state self.old) files bytes → IfErr result (λ fault. IsTrue (is_free fault)) }
        ensures length { IfOk result (λ read. length read ≡ len) }
        ensures stays { self.new.origin ≡ self.old.origin }
        ensures blames { (path : Seq ℕ) (origin : OriginState) → IfErr result (BlamesRead path origin) }
        ensures counts { (n : ℕ) → CountsFiles cause_of result n n }
        ensures takes { IfOk result (λ read. (outside : Seen)
            → TakesBytes read (source_seen O.state self.old) outside (source_seen O.state self.new) outside) }
    {
        if self.at > MAX_LENGTH - len as u64 {
            return Err(self.broken(Reason::Large));
        }
        let held = self.piece.as_slice();
        let end = self.used + len;
        let field = Bytes::of(alloc, &held[self.used..end])?;
        self.hasher.update(field.as_slice());
        self.used = end;
        self.at += len as u64;
        Ok(field)
    }

    /// The next bytes, so many.
    pub(crate) fn field<W: World>(
        &mut self,
        alloc: Global,
        world: &mut W,
        len: usize,
    ) -> Result<Bytes, StoreFault>
        requires { len ≤ 65536 }
        ensures leaves { (path : Seq ℕ)
            → Leaves path (O.state self.old.origin) (seen W.World world.old)
            result (O.state self.new.origin) (seen W.World world.new) }
        ensures reads { (field rest : Seq ℕ) (folders : Seq (Seq ℕ)) → length field ≡ len
            → Reading (λ read. read ≡ field) (field ++ rest) rest folders
            (source_seen O.state self.old) (seen W.World world.old)
            result (source_seen O.state self.new) (seen W.World world.new) }
        ensures length { IfOk result (λ read. length read ≡ len) }
        ensures takes { IfOk result (λ read. TakesBytes read (source_seen O.state self.old) (seen W.World world.old)
            (source_seen O.state self.new) (seen W.World world.new)) }
    {
        self.fill(alloc, world, len)?;
        self.cut(alloc, len)
    }

    /// The next byte.
    pub(crate) fn byte<W: World>(&mut self, alloc: Global, world: &mut W) -> Result<u8, StoreFault>
        ensures leaves { (path : Seq ℕ)
            → Leaves path (O.state self.old.origin) (seen W.World world.old)
            result (O.state self.new.origin) (seen W.World world.new) }
        ensures reads { (b : ℕ) (rest : Seq ℕ) (folders : Seq (Seq ℕ))
            → Reading (λ read. read ≡ b) (b ∷ rest) rest folders
            (source_seen O.state self.old) (seen W.World world.old)
            result (source_seen O.state self.new) (seen W.World world.new) }
        ensures takes { IfOk result (λ read. TakesBytes (read ∷ []) (source_seen O.state self.old)
            (seen W.World world.old) (source_seen O.state self.new) (seen W.World world.new)) }
    {
        let field = self.field(alloc, world, 1)?;
        Ok(first_byte(field.as_slice()))
    }

    /// A text of at most so many bytes, which stands behind its length.
    pub(crate) fn text<W: World>(
        &mut self,
        alloc: Global,
        world: &mut W,
        most: usize,
    ) -> Result<Text, StoreFault>
        requires { most ≤ 4096 }
        ensures leaves { (path : Seq ℕ)
            → Leaves path (O.state self.old.origin) (seen W.World world.old)
            result (O.state self.new.origin) (seen W.World world.new) }
        ensures reads { (text rest : Seq ℕ) (folders : Seq (Seq ℕ)) → is_text most text ≡ true
            → Reading (λ read. read ≡ text)
            (to_be_bytes w16 (length text) ++ (text ++ rest)) rest folders
            (source_seen O.state self.old) (seen W.World world.old)
            result (source_seen O.state self.new) (seen W.World world.new) }
        ensures takes { IfOk result (λ read. TakesBytes (name_bytes read) (source_seen O.state self.old)
            (seen W.World world.old) (source_seen O.state self.new) (seen W.World world.new)) }
    {
        let head = self.field(alloc, world, 2)?;
        let size = u16_of(head.as_slice()) as usize;
        if size > most {
            return Err(self.broken(Reason::Name));
        }
        let bytes = self.field(alloc, world, size)?;
        match str::from_utf8(bytes.as_slice()) {
            Ok(text) => Ok(Text::of(alloc, text)?),
            Err(_) => Err(self.broken(Reason::Name)),
        }
    }

    /// The name of an entry.
    pub(crate) fn name<W: World>(
        &mut self,
        alloc: Global,
        world: &mut W,
    ) -> Result<Text, StoreFault>
        ensures leaves { (path : Seq ℕ)
            → Leaves path (O.state self.old.origin) (seen W.World world.old)
            result (O.state self.new.origin) (seen W.World world.new) }
        ensures reads { (name rest : Seq ℕ) (folders : Seq (Seq ℕ)) → is_name name ≡ true
            → Reading (λ read. read ≡ name)
            (name_bytes name ++ rest) rest folders
            (source_seen O.state self.old) (seen W.World world.old)
            result (source_seen O.state self.new) (seen W.World world.new) }
        ensures part { IfOk result (λ name. IsTrue (is_part name)) }
        ensures form { IfOk result (λ name. is_name name ≡ true) }
        ensures takes { IfOk result (λ read. TakesBytes (name_bytes read) (source_seen O.state self.old)
            (seen W.World world.old) (source_seen O.state self.new) (seen W.World world.new)) }
    {
        let name = self.text(alloc, world, 255)?;
        if is_part(name.as_str().as_bytes()) {
            Ok(name)
        } else {
            Err(self.broken(Reason::Name))
        }
    }
}
