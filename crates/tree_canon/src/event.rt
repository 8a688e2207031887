// What a scan tells of a tree, as the tree's bytes come.
ghost use Rattle.std.specs.Prelude.{◌≡◌, ◌↔◌, IsTrue};
ghost use Rattle.tree_canon.specs.declared.event.Event.TheVariants as events;

use cnb_world::Text;

/// What a tree's bytes say next. The entries of a folder stand between its `Open` and its `Close`, each as its name
/// and its node.
#[derive(Drop)]
pub enum Event {
    /// A folder, which has so many entries.
    Open { count: u32 },
    /// The name of the next entry.
    Name(Text),
    /// A file, whose contents have so many bytes.
    File { exec: bool, len: u64 },
    /// The last bytes that were taken, so many, are the next ones of the file's contents.
    Part(u32),
    /// A link with this target.
    Link(Text),
    /// The innermost open folder is whole.
    Close,
    /// Nothing further is said by the bytes that were given.
    More,
}

impl Event {
    pub(crate) fn is_more(&self) -> bool
        ensures { IsTrue result ↔ (self.now ≡ events.More) }
    {
        match self {
            Event::More => true,
            _ => false,
        }
    }
}

/// How many bytes were taken, and the event that they brought.
#[derive(Drop)]
pub struct Step {
    pub used: u32,
    pub event: Event,
}
