// The caches of a call.
ghost use Rattle.std.specs.Prelude.{◌≡◌, ◌≤◌, length};

use crate::turns::Shelves;
use cnb_world::List;

/// Shelves, and the numbers of those that stand, which are the first of the list. Behind them are those that were
/// dropped, in the order of dropping.
#[derive(Drop)]
pub struct Caches {
    pub shelves: Shelves,
    pub places: List<u32>,
    ghost standing: { length places ≤ length shelves.items },
}

impl Caches {
    pub fn new(shelves: Shelves, places: List<u32>) -> Caches
        requires { length places ≤ length shelves.items }
        ensures shelves { result.shelves.items ≡ shelves.items }
        ensures places { result.places ≡ places }
    {
        Caches { shelves, places }
    }
}
