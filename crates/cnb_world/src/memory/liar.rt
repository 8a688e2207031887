// A world that tells nothing and contradicts itself.
ghost use Rattle.std.specs.Prelude.{◌≡◌, ◌≤◌, ◌<◌, ◌++◌, ◌∷◌, [], None, false, IfOk, OnOk, OnErr, length};
ghost use Rattle.cnb_world.specs.Calls.{AreNames};
ghost use Rattle.cnb_world.specs.Memory.{runs_untold};

use crate::child::{ChildFault, ChildJob, End};
use crate::memory::cut::first_bytes;
use crate::memory::names::add_name;
use crate::path::{Path, is_part};
use crate::values::{Bytes, List, Memory, Text};
use crate::world::{FileFault, Kind, World};
use std::alloc::Global;

/// Each of the bytes of a drawn name.
const LETTERS: [u8; 32] = *b"abcdefghijklmnopqrstuvwxyz.019-_";

/// Beginnings of documents and of trees, so that a caller gets behind the first that it reads.
const TEXTS: [&str; 12] = [
    "[[order]]\n[[order.group]]\nid = \"a\"\nversion = \"1.0.0\"\n",
    "api = \"0.10\"\n[buildpack]\nid = \"a\"\nversion = \"1.0.0\"\n",
    "[[group]]\nid = \"a\"\nversion = \"1.0.0\"\napi = \"0.10\"\n",
    "[[group]]\nid = \"b\"\nversion = \"2.0.0\"\napi = \"0.10\"\n",
    "run = \"r\"\nos = \"linux\"\narch = \"amd64\"\n",
    "[[entries]]\n[[entries.providers]]\nid = \"a\"\nversion = \"1.0.0\"\n",
    "[types]\nlaunch = true\nbuild = true\ncache = true\n",
    "[[processes]]\ntype = \"web\"\ncommand = [\"/bin/sh\"]\n",
    "version = 1\nos = \"linux\"\narch = \"amd64\"\nrows = []\n",
    "[[unmet]]\nname = \"a\"\n",
    "A = \"1\"\n",
    "",
];

/// A child that ran over a liar, and how it ended.
#[derive(Drop)]
pub struct LiarRun {
    pub job: ChildJob,
    pub end: End,
}

/// A world that tells nothing of its files. Each call is answered with `Ok`, and with kinds, lengths, names and bytes
/// that are drawn from a seed, so that one answer contradicts another.
#[derive(Drop)]
pub struct Liar {
    alloc: Global,
    state: u64,
    runs: Vec<LiarRun>,
}

impl Liar {
    pub fn new(alloc: Global, seed: u64) -> Liar
        ensures tree { ⟦<Liar as World>⟧.tree result ≡ None }
        ensures runs { ⟦<Liar as World>⟧.runs result ≡ [] }
        ensures files { ⟦<Liar as World>⟧.file_faults result ≡ 0 }
        ensures children { ⟦<Liar as World>⟧.child_faults result ≡ 0 }
    {
        Liar {
            alloc,
            state: seed,
            runs: Vec::new(alloc),
        }
    }

    // Draws a number below another. The lower bits of the state repeat early, so they are left out.
    fn draw(&mut self, below: u64) -> u64
        requires some { 1 ≤ below }
        ensures below { result < below }
        ensures runs { self.new.runs ≡ self.old.runs }
    {
        self.state = self
            .state
            .wrapping_mul(6364136223846793005)
            .wrapping_add(1442695040888963407);
        (self.state >> 33) % below
    }

    // Draws a number of 64 bits.
    fn wide(&mut self) -> u64
        ensures runs { self.new.runs ≡ self.old.runs }
    {
        let high = self.draw(0x8000_0000);
        let low = self.draw(0x8000_0000);
        high.wrapping_mul(0x2_0000_0000).wrapping_add(low)
    }

    // Draws the length of a file: a short one, or any.
    fn len(&mut self) -> u64
        ensures runs { self.new.runs ≡ self.old.runs }
    {
        if self.draw(2) == 0 {
            self.draw(9)
        } else {
            self.wide()
        }
    }

    // Draws at most 8 bytes: letters, digits and dots, every second time a document's name.
    fn letters(&mut self) -> Result<Bytes, Memory>
        ensures runs { self.new.runs ≡ self.old.runs }
    {
        let bytes = letters_of(self.wide());
        let len = self.draw(9);
        if self.draw(2) == 0 {
            Bytes::of(self.alloc, first_bytes(&bytes, len as usize))
        } else {
            document_name(self.alloc, first_bytes(&bytes, 3))
        }
    }

    // Draws the code of a child, every second time 0.
    fn code(&mut self) -> Option<i32>
        ensures runs { self.new.runs ≡ self.old.runs }
    {
        match self.draw(4) {
            0 => None,
            1 => Some(self.draw(120) as i32),
            _ => Some(0),
        }
    }

    // Draws what a child writes on descriptor 3, where that is kept.
    fn side(&mut self, kept: bool) -> Result<Bytes, Memory>
        ensures bound { IfOk result (λ side. length side ≤ 64) }
        ensures none { kept ≡ false → IfOk result (λ side. side ≡ []) }
        ensures runs { self.new.runs ≡ self.old.runs }
    {
        self.bytes(if kept { 64 } else { 0 })
    }

    // Adds the row of a child that ended so.
    fn add_run(&mut self, job: &ChildJob, end: &End) -> Result<(), Memory>
        ensures ok { OnOk result (self.new.runs.items
            ≡ self.old.runs.items ++ record { job = job.now; end = end.now } ∷ []) }
        ensures err { OnErr result (self.new.runs.items ≡ self.old.runs.items) }
    {
        let row = LiarRun {
            job: job.copy(self.alloc)?,
            end: end.copy(self.alloc)?,
        };
        self.runs.push(row)?;
        Ok(())
    }

    // Draws bytes of a document or a tree, at most so many.
    fn bytes(&mut self, max: u64) -> Result<Bytes, Memory>
        ensures bound { IfOk result (λ bytes. length bytes ≤ max) }
        ensures bytes_bound { IfOk result (λ bytes. length bytes ≤ 64) }
        ensures runs { self.new.runs ≡ self.old.runs }
    {
        let text = TEXTS[self.draw(12) as usize];
        let is_whole = self.draw(2) == 0;
        let most = if is_whole { 64 } else { self.draw(65) };
        let most = most.min(max);
        Bytes::of(self.alloc, first_bytes(text.as_bytes(), most as usize))
    }
}

// Eight letters for the bytes of a number.
fn letters_of(drawn: u64) -> [u8; 8] {
    let mut letters = drawn.to_le_bytes();
    for letter in &mut letters {
        *letter = LETTERS[(*letter % 32) as usize];
    }
    letters
}

// The name of a document, from its first letters.
fn document_name(alloc: Global, letters: &[u8]) -> Result<Bytes, Memory> {
    let mut name = Bytes::of(alloc, letters)?;
    name.append(b".toml")?;
    Ok(name)
}

// The text of letters, each of which is one byte of it.
fn text_of(alloc: Global, letters: &Bytes) -> Result<Text, Memory> {
    Text::of(alloc, std::str::from_utf8(letters.as_slice()).unwrap_or(""))
}

// Adds a drawn name to those of a folder, where a file may have it.
#[tactic(auto, using(crate::proofs::ListingLemmas::standing))]
fn add_drawn(alloc: Global, names: &mut Vec<Text>, letters: &Bytes) -> Result<(), Memory>
    ensures { OnOk result (AreNames names.old.items → AreNames names.new.items) }
{
    let name = text_of(alloc, letters)?;
    if is_part(name.as_str().as_bytes()) {
        add_name(alloc, names, name.as_str())?;
    }
    Ok(())
}

impl World for Liar {
    ghost tree = { λ _. None };

    ghost file_faults = { λ _. 0 };

    ghost failed_at = { λ _. None };

    ghost child_faults = { λ _. 0 };

    ghost misused = { λ _. 0 };

    ghost runs = { λ liar. runs_untold liar.runs.items };

    ghost standing = { λ _. tt };

    fn kind(&mut self, _path: &Path) -> Result<Kind, FileFault> {
        Ok(match self.draw(5) {
            0 => Kind::Absent,
            1 => Kind::Folder,
            2 => Kind::Link,
            3 => Kind::Odd,
            _ => {
                let exec = self.draw(2) == 1;
                let len = self.len();
                Kind::File { exec, len }
            }
        })
    }

    fn list(&mut self, _path: &Path) -> Result<List<Text>, FileFault> {
        let mut names = Vec::new(self.alloc);
        for _ in 0..self.draw(5) {
            let letters = self.letters()?;
            add_drawn(self.alloc, &mut names, &letters)?;
        }
        Ok(List::from_vec(names))
    }

    fn read(&mut self, _path: &Path, _at: u64, max: u64) -> Result<Bytes, FileFault> {
        Ok(self.bytes(max)?)
    }

    fn create(&mut self, _path: &Path, _exec: bool) -> Result<(), FileFault> {
        Ok(())
    }

    fn append(&mut self, _path: &Path, _bytes: &[u8]) -> Result<(), FileFault> {
        Ok(())
    }

    fn make_folder(&mut self, _path: &Path) -> Result<(), FileFault> {
        Ok(())
    }

    fn rename(&mut self, _old: &Path, _new: &Path) -> Result<(), FileFault> {
        Ok(())
    }

    fn make_link(&mut self, _path: &Path, _target: &str) -> Result<(), FileFault> {
        Ok(())
    }

    fn read_link(&mut self, _path: &Path) -> Result<Text, FileFault> {
        let letters = self.letters()?;
        Ok(text_of(self.alloc, &letters)?)
    }

    fn remove(&mut self, _path: &Path) -> Result<(), FileFault> {
        Ok(())
    }

    fn run(&mut self, job: &ChildJob) -> Result<End, ChildFault> {
        let code = self.code();
        let end = End {
            code,
            side: self.side(job.side)?,
        };
        self.add_run(job, &end)?;
        Ok(end)
    }
}
