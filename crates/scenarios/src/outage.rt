// A call that fails besides those that the row names.

/// A call that fails besides those that the row names, by its number from 0; of a cache by the cache's number before
/// it. Or how many of the bytes of a file are there, of the one that the row names as cut.
#[derive(Clone, Copy)]
pub enum Outage {
    Nothing,
    World(u64),
    Spawner(u64),
    Sink(u64),
    Shelf(usize, u64),
    Cut(usize),
}

impl Outage {
    /// The call of the kind that rows name by this word.
    pub(crate) fn of(self, kind: &str) -> Option<u64> {
        match self {
            Outage::World(number) if kind == "world" => Some(number),
            Outage::Spawner(number) if kind == "spawner" => Some(number),
            Outage::Sink(number) if kind == "sink" => Some(number),
            _ => None,
        }
    }

    /// The call of the cache of this number.
    pub(crate) fn of_shelf(self, place: usize) -> Option<u64> {
        match self {
            Outage::Shelf(shelf, number) if shelf == place => Some(number),
            _ => None,
        }
    }
}
