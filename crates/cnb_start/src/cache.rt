// A cache in a folder, over the system of this program.
ghost use Rattle.std.specs.Prelude.{◌≡◌};

use cnb_host::FolderShelf;
use cnb_world::{Bytes, Path, Shelf, ShelfFault};
use std::alloc::AllocError;

/// A cache in a folder of the system, which says on standard error why a call on it failed: it is left out from then on,
/// and its number is all that is printed.
#[derive(Drop)]
pub struct FolderCache {
    shelf: FolderShelf<HostRuntime>,
    rt: HostRuntime,
}

impl FolderCache {
    /// The cache in this folder.
    pub fn new(rt: &HostRuntime, folder: Path) -> Result<FolderCache, AllocError> {
        Ok(FolderCache {
            shelf: FolderShelf::new(rt.clone()?, folder),
            rt: rt.clone()?,
        })
    }

    fn explained<T>(&self, outcome: Result<T, ShelfFault>) -> Result<T, ShelfFault>
        ensures { result ≡ outcome }
    {
        if matches!(outcome, Err(ShelfFault::Failed)) {
            self.explain();
        }
        outcome
    }

    fn explain(&self) {
        if let Ok(Some(failure)) = self.shelf.failure() {
            // Where standard error takes nothing, there is nobody to be informed.
            let _ = eprintln!(self.rt; "cache {failure}");
        }
    }
}

impl Shelf for FolderCache {
    ghost use Rattle.std.specs.Prelude.{None};

    ghost held = { λ _. None };

    ghost rows = { λ _. None };

    ghost begun = { λ _. None };

    ghost faults = { λ cache. cache.shelf };

    fn rows(&mut self) -> Result<Bytes, ShelfFault> {
        let outcome = self.shelf.rows();
        self.explained(outcome)
    }

    fn set_rows(&mut self, bytes: &[u8]) -> Result<(), ShelfFault> {
        let outcome = self.shelf.set_rows(bytes);
        self.explained(outcome)
    }

    fn has(&mut self, digest: &[u8; 32]) -> Result<bool, ShelfFault> {
        let outcome = self.shelf.has(digest);
        self.explained(outcome)
    }

    fn read(&mut self, digest: &[u8; 32], at: u64, most: u64) -> Result<Option<Bytes>, ShelfFault> {
        let outcome = self.shelf.read(digest, at, most);
        self.explained(outcome)
    }

    fn begin(&mut self, digest: &[u8; 32]) -> Result<(), ShelfFault> {
        let outcome = self.shelf.begin(digest);
        self.explained(outcome)
    }

    fn append(&mut self, bytes: &[u8]) -> Result<(), ShelfFault> {
        let outcome = self.shelf.append(bytes);
        self.explained(outcome)
    }

    fn keep(&mut self) -> Result<(), ShelfFault> {
        let outcome = self.shelf.keep();
        self.explained(outcome)
    }
}
