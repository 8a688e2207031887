// A cache in memory that counts its calls and its ends.
use cnb_world::{Bytes, MemShelf, Shelf, ShelfFault};
use std::cell::Cell;
use std::rc::Rc;

/// How often a cache was called, and how often it was ended.
#[derive(Drop)]
pub struct Marks {
    pub calls: Cell<u64>,
    pub ends: Cell<u64>,
}

/// A cache in memory whose calls and ends are counted.
pub struct Watched {
    pub shelf: MemShelf,
    pub marks: Rc<Marks>,
}

impl Watched {
    fn count_call(&self) {
        self.marks
            .calls
            .set(self.marks.calls.get().saturating_add(1));
    }
}

impl Drop for Watched {
    fn drop(self) {
        self.marks.ends.set(self.marks.ends.get().saturating_add(1));
        let Watched { shelf: _, marks: _ } = self;
    }
}

impl Shelf for Watched {
    ghost held = { λ s. ⟦<MemShelf as Shelf>⟧.held s.shelf };

    ghost rows = { λ s. ⟦<MemShelf as Shelf>⟧.rows s.shelf };

    ghost begun = { λ s. ⟦<MemShelf as Shelf>⟧.begun s.shelf };

    ghost faults = { λ s. ⟦<MemShelf as Shelf>⟧.faults s.shelf };

    fn rows(&mut self) -> Result<Bytes, ShelfFault> {
        self.count_call();
        self.shelf.rows()
    }

    fn set_rows(&mut self, bytes: &[u8]) -> Result<(), ShelfFault> {
        self.count_call();
        self.shelf.set_rows(bytes)
    }

    fn has(&mut self, digest: &[u8; 32]) -> Result<bool, ShelfFault> {
        self.count_call();
        self.shelf.has(digest)
    }

    fn read(&mut self, digest: &[u8; 32], at: u64, most: u64) -> Result<Option<Bytes>, ShelfFault> {
        self.count_call();
        self.shelf.read(digest, at, most)
    }

    fn begin(&mut self, digest: &[u8; 32]) -> Result<(), ShelfFault> {
        self.count_call();
        self.shelf.begin(digest)
    }

    fn append(&mut self, bytes: &[u8]) -> Result<(), ShelfFault> {
        self.count_call();
        self.shelf.append(bytes)
    }

    fn keep(&mut self) -> Result<(), ShelfFault> {
        self.count_call();
        self.shelf.keep()
    }
}
