// What a scan keeps of a tree that is cut: the field that comes next and the names of the open folders.
ghost use Rattle.std.specs.Prelude.{◌≡◌, ◌≤◌, ◌↔◌, [], length, unwrap_or, IfOk, IsTrue};
ghost use Rattle.tree_canon.specs.Scanning.{field_width, length_before, IsContents, IsWholeField, IsReadableField};
ghost use Rattle.tree_canon.specs.Fields.{event_by};

use crate::event::Event;
use crate::field::{text_of, u32_of, u64_of};
use cnb_world::{List, Memory};
use std::alloc::Global;

/// A folder that isn't whole: how many entries follow the one under way, and the name of that one.
#[derive(Drop)]
pub struct ScannedFolder {
    pub left: u32,
    pub name: List<u8>,
}

/// The field that comes next. `left` counts the entries behind the one that the field belongs to, and `last` is the
/// name of the entry before it. Of the `size` bytes of a file's contents `taken` were read.
#[derive(Drop)]
pub enum NextField {
    Magic(u8),
    Tag,
    Count,
    NameLength {
        left: u32,
        last: Option<List<u8>>,
    },
    Name {
        left: u32,
        last: Option<List<u8>>,
        size: u16,
    },
    Executable,
    FileLength {
        exec: bool,
    },
    Contents {
        size: u64,
        taken: u64,
    },
    TargetLength,
    Target {
        size: u16,
    },
    End,
}

impl NextField {
    /// The number of bytes of the field.
    pub fn width(&self) -> u64
        ensures { result ≡ field_width self.now }
    {
        match self {
            NextField::Magic(_) => 1,
            NextField::Tag => 1,
            NextField::Count => 4,
            NextField::NameLength { left: _, last: _ } => 2,
            NextField::Name {
                left: _,
                last: _,
                size,
            } => *size as u64,
            NextField::Executable => 1,
            NextField::FileLength { exec: _ } => 8,
            NextField::Contents { size, taken: _ } => *size,
            NextField::TargetLength => 2,
            NextField::Target { size } => *size as u64,
            NextField::End => 1,
        }
    }

    /// How long the name before the next one is, where it is kept.
    pub fn length_before(&self) -> usize
        ensures { result ≡ length_before self.now }
    {
        match self {
            NextField::NameLength { left: _, last } => length_of(last),
            NextField::Name {
                left: _,
                last,
                size: _,
            } => length_of(last),
            _ => 0,
        }
    }
}

impl NextField {
    /// Whether it is a file's contents.
    pub fn is_contents(&self) -> bool
        ensures { IsTrue result ↔ IsContents self.now }
    {
        match self {
            NextField::Contents { size: _, taken: _ } => true,
            _ => false,
        }
    }

    /// The event that the field brings, which is whole and meets its rules, or else `More`. Of a file's contents the
    /// last bytes are enough.
    #[inline(always)]
    pub fn event(&self, alloc: Global, field: &[u8]) -> Result<Event, Memory>
        requires whole { IsWholeField self.now field.now }
        requires readable { IsReadableField self.now field.now }
        requires few { length field.now ≤ 65536 }
        ensures { IfOk result (λ event. event ≡ event_by self.now field.now) }
    {
        match self {
            NextField::Count => Ok(Event::Open {
                count: u32_of(field),
            }),
            NextField::Name {
                left: _,
                last: _,
                size: _,
            } => Ok(Event::Name(text_of(alloc, field)?)),
            NextField::FileLength { exec } => Ok(Event::File {
                exec: *exec,
                len: u64_of(field),
            }),
            NextField::Contents { size: _, taken: _ } => Ok(Event::Part(field.len() as u32)),
            NextField::Target { size: _ } => Ok(Event::Link(text_of(alloc, field)?)),
            _ => Ok(Event::More),
        }
    }
}

/// A name that is kept, in the room of the last one.
pub fn kept(alloc: Global, last: Option<List<u8>>, name: &[u8]) -> Result<List<u8>, Memory>
    ensures { IfOk result (λ kept. kept ≡ name.now) }
{
    let mut room = match last {
        Some(last) => last.into_vec(),
        None => Vec::new(alloc),
    };
    room.clear();
    room.extend_from_slice(name)?;
    Ok(List::from_vec(room))
}

fn length_of(name: &Option<List<u8>>) -> usize
    ensures { result ≡ length (unwrap_or name.now []) }
{
    match name {
        Some(name) => name.as_slice().len(),
        None => 0,
    }
}
