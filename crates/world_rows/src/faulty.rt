// Files of the system on which calls fail.
use std::alloc::{Allocator, Global};
use std::cell::Cell;
use std::fs::{File, Metadata, OpenFile, OpenOptions};
use std::io;
use std::io::{ErrorKind, Read, Seek, SeekFrom, Write};
use std::os::unix::fs::FileExt;
use std::rt::Files;

/// A call that fails.
#[derive(Clone, Copy, PartialEq, Eq)]
pub enum Failing {
    Nothing,
    Look,
    Open,
    MakeFolder,
    Read,
    Write,
    Sync,
    Rename,
}

impl Failing {
    /// The call of a name.
    pub(crate) fn named(name: &str) -> Failing {
        match name {
            "look" => Failing::Look,
            "open" => Failing::Open,
            "make_folder" => Failing::MakeFolder,
            "read" => Failing::Read,
            "write" => Failing::Write,
            "sync" => Failing::Sync,
            "rename" => Failing::Rename,
            _ => Failing::Nothing,
        }
    }

    fn unless(self, call: Failing) -> io::Result<()> {
        if self == call {
            Err(io::Error::from(ErrorKind::TimedOut))
        } else {
            Ok(())
        }
    }
}

/// The files of the system, on which one call fails.
#[derive(Drop)]
pub struct FaultyFiles {
    pub rt: HostRuntime,
    pub failing: Failing,
}

/// An open file. Two bytes are read or written at once, and the second read is interrupted. Where reads fail, those
/// from the fifth byte on do.
#[derive(Drop)]
pub struct FaultyFile {
    file: File,
    failing: Failing,
    reads: Cell<u8>,
}

impl Alloc for FaultyFiles {
    type A = Global;

    fn alloc(&self) -> Global {
        self.rt.alloc()
    }
}

impl Files for FaultyFiles {
    type File = FaultyFile;

    type Dir = io::Empty;

    fn open_file(&self, how: &OpenOptions, path: &str) -> io::Result<FaultyFile> {
        self.failing.unless(Failing::Open)?;
        Ok(FaultyFile {
            file: self.rt.open_file(how, path)?,
            failing: self.failing,
            reads: Cell::new(0),
        })
    }

    fn open_dir(&self, _path: &str) -> io::Result<io::Empty> {
        Ok(io::empty())
    }

    fn metadata(&self, path: &str) -> io::Result<Metadata> {
        self.rt.metadata(path)
    }

    fn symlink_metadata(&self, path: &str) -> io::Result<Metadata> {
        self.failing.unless(Failing::Look)?;
        self.rt.symlink_metadata(path)
    }

    fn copy(&self, from: &str, to: &str) -> io::Result<u64> {
        self.rt.copy(from, to)
    }

    fn rename(&self, from: &str, to: &str) -> io::Result<()> {
        self.failing.unless(Failing::Rename)?;
        self.rt.rename(from, to)
    }

    fn remove_file(&self, path: &str) -> io::Result<()> {
        self.rt.remove_file(path)
    }

    fn create_dir(&self, path: &str) -> io::Result<()> {
        self.failing.unless(Failing::MakeFolder)?;
        self.rt.create_dir(path)
    }

    fn remove_dir(&self, path: &str) -> io::Result<()> {
        self.rt.remove_dir(path)
    }

    fn remove_dir_all<B: Allocator>(&self, alloc: B, path: &str) -> io::Result<()> {
        self.rt.remove_dir_all(alloc, path)
    }
}

impl Read for FaultyFile {
    fn read(&mut self, buf: &mut [u8]) -> io::Result<usize> {
        self.file.read(buf)
    }
}

impl Write for FaultyFile {
    fn write(&mut self, buf: &[u8]) -> io::Result<usize> {
        self.failing.unless(Failing::Write)?;
        self.file.write(&buf[..buf.len().min(2)])
    }

    fn flush(&mut self) -> io::Result<()> {
        self.file.flush()
    }
}

impl Seek for FaultyFile {
    fn seek(&mut self, to: SeekFrom) -> io::Result<u64> {
        self.file.seek(to)
    }
}

impl OpenFile for FaultyFile {
    fn metadata(&self) -> io::Result<Metadata> {
        self.file.metadata()
    }

    fn set_len(&self, size: u64) -> io::Result<()> {
        self.file.set_len(size)
    }

    fn sync_all(&self) -> io::Result<()> {
        self.file.sync_all()
    }

    fn sync_data(&self) -> io::Result<()> {
        self.failing.unless(Failing::Sync)?;
        self.file.sync_data()
    }
}

impl FileExt for FaultyFile {
    fn read_at(&self, buf: &mut [u8], offset: u64) -> io::Result<usize> {
        self.reads.set(self.reads.get().saturating_add(1));
        if self.reads.get() == 2 {
            return Err(io::Error::from(ErrorKind::Interrupted));
        }
        if offset >= 4 {
            self.failing.unless(Failing::Read)?;
        }
        let few = buf.len().min(2);
        self.file.read_at(&mut buf[..few], offset)
    }

    fn write_at(&self, buf: &[u8], offset: u64) -> io::Result<usize> {
        self.file.write_at(buf, offset)
    }
}
