// Making a tree of what a scan tells of it.
ghost use Rattle.std.specs.Prelude.{◌≡◌, ◌≤◌, ℕ, [], length, map, reverse, OnOk};
ghost use Rattle.tree_canon.specs.declared.event.Event.TheVariants as events;
ghost use Rattle.tree_canon.specs.Events.{told, Content};
ghost use Rattle.tree_canon.specs.Making.{made_from, made_none, with_node, with_name, with_end, with_contents};
ghost use Rattle.tree_canon.specs.Making.{IsPartial};

use crate::event::Event;
use crate::node::{Named, Node};
use cnb_world::{Bytes, List, Memory, Text};
use std::alloc::Global;
use std::mem;

// What is done for an event is inlined, since nodes that calls take and return are copied.

/// A folder that isn't whole: its count, its entries before the one under way, and the name of that one.
#[derive(Drop)]
pub struct OpenFolder {
    pub count: u32,
    pub before: List<Named>,
    pub name: Text,
}

/// What there is of the node under way: nothing, a folder's entries that are whole, a file's first bytes, or all of it,
/// if it is the root.
#[derive(Drop)]
pub enum Current {
    Nothing,
    Folder { count: u32, before: List<Named> },
    File { exec: bool, size: u64, bytes: Bytes },
    Whole(Node),
}

/// A tree under way: the open folders, the innermost last, and the node under way.
#[derive(Drop)]
pub struct Building {
    pub alloc: Global,
    pub folders: Vec<OpenFolder>,
    pub current: Current,
    ghost partial: { IsPartial current },
}

impl Building {
    ghost use Rattle.tree_canon.specs.Decoding.{made};

    /// Before the first event.
    pub fn new(alloc: Global) -> Building
        ensures { made result ≡ made_none }
    {
        Building {
            alloc,
            folders: Vec::new(alloc),
            current: Current::Nothing,
        }
    }

    /// Adds what an event tells. The bytes `taken` were taken for it, and `coming` counts those that were received
    /// behind them: a file takes room for no more than these at once.
    #[inline(always)]
    pub fn add(&mut self, event: Event, taken: &[u8], coming: usize) -> Result<(), Memory>
        requires { (n : ℕ) → event ≡ events.Part n → n ≤ length taken.now }
        ensures { OnOk result (made self.new ≡ made_from (made self.old) (told event taken.now)) }
    {
        match event {
            Event::Open { count } => {
                self.current = Current::Folder {
                    count,
                    before: List::new(self.alloc),
                };
                Ok(())
            }
            Event::Name(name) => self.open(name),
            Event::File { exec, len } => self.begin(exec, len, coming),
            Event::Part(n) => self.append(&taken[taken.len() - n as usize..]),
            Event::Link(target) => self.put(Node::Link { target }),
            Event::Close => self.close(),
            Event::More => Ok(()),
        }
    }

    /// The folder under way is open at an entry of this name.
    #[inline(always)]
    fn open(&mut self, name: Text) -> Result<(), Memory>
        ensures { OnOk result (made self.new ≡ with_name (reverse self.old.folders.items) self.old.current name) }
    {
        if let Current::Folder { count, before } = mem::replace(
            &mut self.current,
            Current::Nothing,
        ) {
            self.folders.push(OpenFolder {
                count,
                before,
                name,
            })?;
        }
        Ok(())
    }

    /// The folder under way is whole.
    fn close(&mut self) -> Result<(), Memory>
        ensures { OnOk result (made self.new ≡ with_end (reverse self.old.folders.items) self.old.current) }
    {
        match mem::replace(&mut self.current, Current::Nothing) {
            Current::Folder { count: _, before } => self.put(Node::Folder(before)),
            _ => Ok(()),
        }
    }

    /// A file of so many bytes, of which none were taken yet.
    #[inline(always)]
    fn begin(&mut self, exec: bool, size: u64, coming: usize) -> Result<(), Memory>
        ensures { OnOk result (made self.new ≡ with_contents (reverse self.old.folders.items) exec size []) }
    {
        if size == 0 {
            let bytes = Bytes::from_vec(Vec::new(self.alloc));
            return self.put(Node::File { exec, bytes });
        }
        let room = size.min(coming as u64) as usize;
        let bytes = Bytes::from_vec(Vec::with_capacity(self.alloc, room)?);
        self.current = Current::File { exec, size, bytes };
        Ok(())
    }

    /// Adds the next bytes of the file under way, which has none past its length.
    fn append(&mut self, next: &[u8]) -> Result<(), Memory>
        ensures { OnOk result (made self.new ≡ made_from (made self.old) (map Content next.now)) }
    {
        match mem::replace(&mut self.current, Current::Nothing) {
            Current::File { exec, size, bytes } => {
                let mut bytes = bytes;
                let left = size - bytes.as_slice().len() as u64;
                let share = left.min(next.len() as u64) as usize;
                bytes.append(&next[..share])?;
                if (share as u64) < left {
                    self.current = Current::File { exec, size, bytes };
                    return Ok(());
                }
                self.put(Node::File { exec, bytes })
            }
            other => {
                self.current = other;
                Ok(())
            }
        }
    }

    /// A node is whole: it is the root, or one more entry of the innermost open folder.
    #[inline(always)]
    fn put(&mut self, node: Node) -> Result<(), Memory>
        ensures { OnOk result (made self.new ≡ with_node (reverse self.old.folders.items) node) }
    {
        let Some(folder) = self.folders.pop() else {
            self.current = Current::Whole(node);
            return Ok(());
        };
        let OpenFolder {
            count,
            before,
            name,
        } = folder;
        let mut before = before;
        before.push(Named { name, node })?;
        self.current = Current::Folder { count, before };
        Ok(())
    }
}
