// A shelf in memory.
ghost use Rattle.std.specs.Prelude.{◌≡◌, ◌++◌, ◌∷◌, [], IfOk, OnErr, OnOk, Some};
ghost use Rattle.std.specs.FinMap.{get, insert};
ghost use Rattle.std.specs.Option.{option_copied};
ghost use Rattle.std.specs.Str.{bytes_eq};
ghost use Rattle.cnb_world.specs.Calls.{Rose};
ghost use Rattle.cnb_world.specs.Shelf.{held_of};

use crate::memory::changes::part;
use crate::memory::numbers::{Numbers, raised};
use crate::shelf::{Shelf, ShelfFault};
use crate::values::{Bytes, List, Memory};
use std::alloc::Global;

/// Bytes under a digest.
#[derive(Drop)]
pub struct Held {
    pub digest: [u8; 32],
    pub bytes: Bytes,
}

/// A shelf in memory. Calls are numbered from 0, and those of the given numbers are counted faults. A call that fails
/// to begin, append or keep drops what was begun.
#[derive(Drop)]
pub struct MemShelf {
    alloc: Global,
    rows: Bytes,
    puts: Vec<Held>,
    begun: Option<Held>,
    numbers: Numbers,
    faults: u64,
}

impl MemShelf {
    /// The shelf with this rows document and these bytes, later ones in place of earlier ones under the same digest.
    pub fn new(
        alloc: Global,
        rows: Bytes,
        held: List<Held>,
        faulty: List<u64>,
    ) -> Result<MemShelf, Memory>
        ensures held { IfOk result (λ shelf. ⟦<MemShelf as Shelf>⟧.held shelf ≡ Some (held_of held)) }
        ensures rows { IfOk result (λ shelf. ⟦<MemShelf as Shelf>⟧.rows shelf ≡ Some rows) }
        ensures faults { IfOk result (λ shelf. ⟦<MemShelf as Shelf>⟧.faults shelf ≡ 0) }
    {
        Ok(MemShelf {
            alloc,
            rows,
            puts: held.into_vec(),
            begun: None,
            numbers: Numbers::new(faulty),
            faults: 0,
        })
    }

    fn fault(&mut self) -> ShelfFault
        ensures fault { result ≡ ShelfFault.Failed }
        ensures rows { self.new.rows ≡ self.old.rows }
        ensures puts { self.new.puts ≡ self.old.puts }
        ensures faults { Rose self.old.faults self.new.faults }
    {
        self.faults = raised(self.faults);
        ShelfFault::Failed
    }

    fn found(&self, digest: &[u8; 32]) -> Option<&Bytes>
        ensures { option_copied result ≡ get (held_of self.now.puts.items) digest.now }
    {
        bytes_under(self.puts.as_slice(), digest)
    }

    #[tactic(auto, using(crate::proofs::ShelfLemmas::held_of_push))]
    fn add(&mut self, held: Held) -> Result<(), Memory>
        ensures ok { OnOk result (held_of self.new.puts.items
            ≡ insert (held_of self.old.puts.items) held.digest held.bytes) }
        ensures err { OnErr result (self.new.puts.items ≡ self.old.puts.items) }
        ensures rows { self.new.rows ≡ self.old.rows }
        ensures faults { self.new.faults ≡ self.old.faults }
    {
        Ok(self.puts.push(held)?)
    }
}

impl Shelf for MemShelf {
    ghost held = { λ s. Some (held_of s.puts.items) };

    ghost rows = { λ s. Some s.rows };

    ghost begun = { λ s. s.begun };

    ghost faults = { λ s. s.faults };

    fn rows(&mut self) -> Result<Bytes, ShelfFault> {
        if self.numbers.is_next_faulty() {
            return Err(self.fault());
        }
        Ok(Bytes::of(self.alloc, self.rows.as_slice())?)
    }

    fn set_rows(&mut self, bytes: &[u8]) -> Result<(), ShelfFault> {
        if self.numbers.is_next_faulty() {
            return Err(self.fault());
        }
        self.rows = Bytes::of(self.alloc, bytes)?;
        Ok(())
    }

    fn has(&mut self, digest: &[u8; 32]) -> Result<bool, ShelfFault> {
        if self.numbers.is_next_faulty() {
            return Err(self.fault());
        }
        Ok(self.found(digest).is_some())
    }

    fn read(&mut self, digest: &[u8; 32], at: u64, most: u64) -> Result<Option<Bytes>, ShelfFault> {
        if self.numbers.is_next_faulty() {
            return Err(self.fault());
        }
        match self.found(digest) {
            Some(bytes) => Ok(Some(Bytes::of(self.alloc, part(bytes.as_slice(), at, most))?)),
            None => Ok(None),
        }
    }

    fn begin(&mut self, digest: &[u8; 32]) -> Result<(), ShelfFault> {
        self.begun = None;
        if self.numbers.is_next_faulty() {
            return Err(self.fault());
        }
        self.begun = Some(Held {
            digest: *digest,
            bytes: Bytes::from_vec(Vec::new(self.alloc)),
        });
        Ok(())
    }

    fn append(&mut self, bytes: &[u8]) -> Result<(), ShelfFault> {
        let begun = self.begun.take();
        if self.numbers.is_next_faulty() {
            return Err(self.fault());
        }
        let Some(mut held) = begun else {
            return Err(self.fault());
        };
        held.bytes.append(bytes)?;
        self.begun = Some(held);
        Ok(())
    }

    fn keep(&mut self) -> Result<(), ShelfFault> {
        let begun = self.begun.take();
        if self.numbers.is_next_faulty() {
            return Err(self.fault());
        }
        let Some(held) = begun else {
            return Err(self.fault());
        };
        Ok(self.add(held)?)
    }
}

// The bytes that were put last under a digest.
fn bytes_under<'a>(puts: &'a [Held], digest: &[u8; 32]) -> Option<&'a Bytes>
    ensures { option_copied result ≡ get (held_of puts.now) digest.now }
{
    let Some((last, earlier)) = puts.split_last() else {
        return None;
    };
    if is_under(last, digest) {
        return Some(&last.bytes);
    }
    bytes_under(earlier, digest)
}

fn is_under(held: &Held, digest: &[u8; 32]) -> bool
    ensures { result ≡ bytes_eq digest.now held.now.digest }
{
    digest.as_slice() == held.digest.as_slice()
}
