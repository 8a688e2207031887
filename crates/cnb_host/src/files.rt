// Calls on files of the system.
//
// A link in the last part of a path is never followed. What stands at a path is looked at before it is opened, so that
// a pipe or a device is not opened at all, and the opened file is compared with what was looked at. Between the two
// another process may still put a pipe there, which would be opened and waited for.
ghost use Rattle.std.specs.Prelude.{◌≡◌, ◌≤◌, ◌⊎◌, IfErr, IfOk, IfSome, IsErr, IsTrue, Ok, Some, None, false, length};
ghost use Rattle.std.specs.Fs.{file_type, metadata_len, IsDir, IsFile, IsSymlink};
ghost use Rattle.std.specs.IoError.{error_kind};
ghost use Rattle.cnb_host.specs.Faults.{is_absence};
ghost use Rattle.cnb_host.specs.Kinds.{may_run};

use crate::cause::Cause;
use crate::fault::HostFault;
use cnb_world::{Bytes, Kind, Text};
use std::alloc::Global;
use std::fs::{Metadata, OpenFile, OpenOptions, Permissions};
use std::io::{ErrorKind, Write};
use std::os::unix::fs::{FileExt, MetadataExt, OpenOptionsExt, PermissionsExt, symlink};
use std::rt::Files;
use std::{fs, io};

/// What stands at a path. Below what is no folder nothing stands.
pub fn kind_at(rt: &impl Files, path: &str) -> Result<Kind, HostFault> {
    match look_at(rt, path)? {
        Some(found) => Ok(kind_of(&found)),
        None => Ok(Kind::Absent),
    }
}

/// What the system says of what stands at a path.
pub fn look_at(rt: &impl Files, path: &str) -> Result<Option<Metadata>, HostFault> {
    found_of(fs::symlink_metadata(rt, path))
}

// What the system found: nothing where it knows of no such path, and that alone is no fault.
fn found_of(looked: io::Result<Metadata>) -> Result<Option<Metadata>, HostFault>
    ensures found { IfOk looked (λ found. result ≡ Ok (Some found)) }
    ensures absent { IfErr looked (λ error. IsTrue (is_absence (error_kind error)) → result ≡ Ok None) }
    ensures fault { IfErr looked (λ error. is_absence (error_kind error) ≡ false → IsErr result) }
{
    match looked {
        Ok(found) => Ok(Some(found)),
        Err(error) => match error.kind() {
            ErrorKind::NotFound | ErrorKind::NotADirectory => Ok(None),
            _ => Err(HostFault::from(error)),
        },
    }
}

/// What the system found, as a kind.
pub fn kind_of(found: &Metadata) -> Kind
    ensures file { IsFile (file_type found.now)
        → result ≡ Kind.File (may_run found.now) (metadata_len found.now) }
    ensures folder { IsDir (file_type found.now) → result ≡ Kind.Folder }
    ensures link { IsSymlink (file_type found.now) → result ≡ Kind.Link }
    ensures odd { result ≡ Kind.Odd
        ⊎ IsFile (file_type found.now) ⊎ IsDir (file_type found.now) ⊎ IsSymlink (file_type found.now) }
{
    if found.is_file() {
        Kind::File {
            exec: found.mode() & 0o111 != 0,
            len: found.len(),
        }
    } else if found.is_dir() {
        Kind::Folder
    } else if found.is_symlink() {
        Kind::Link
    } else {
        Kind::Odd
    }
}

/// The bytes of the regular file at a path from `at` on, at most `max` of them.
pub fn read_part<R: Files>(
    rt: &R,
    alloc: Global,
    path: &str,
    at: u64,
    max: u64,
) -> Result<Bytes, HostFault>
where
    R::File: FileExt,
    ensures bound { IfOk result (λ bytes. length bytes ≤ max) }
{
    let found = fs::symlink_metadata(rt, path)?;
    read_found(rt, alloc, path, &found, at, max)
}

/// Does the same for a file that was looked at before.
pub fn read_found<R: Files>(
    rt: &R,
    alloc: Global,
    path: &str,
    found: &Metadata,
    at: u64,
    max: u64,
) -> Result<Bytes, HostFault>
where
    R::File: FileExt,
    ensures bound { IfOk result (λ bytes. length bytes ≤ max) }
{
    let (file, len) = open_to_read(rt, path, found)?;
    read_at_most(alloc, &file, at, len.saturating_sub(at).min(max))
}

/// The bytes of the regular file at a path, at most `max` of them. A file that has none is not opened.
pub fn read_unless_empty<R: Files>(
    rt: &R,
    alloc: Global,
    path: &str,
    max: u64,
) -> Result<Bytes, HostFault>
where
    R::File: FileExt,
    ensures bound { IfOk result (λ bytes. length bytes ≤ max) }
{
    let found = fs::symlink_metadata(rt, path)?;
    if found.is_file() && found.len() == 0 {
        return Ok(Bytes::from_vec(Vec::new(alloc)));
    }
    read_found(rt, alloc, path, &found, 0, max)
}

/// The regular file that was found at a path, opened, and its length.
pub fn open_to_read<R: Files>(
    rt: &R,
    path: &str,
    found: &Metadata,
) -> Result<(R::File, u64), HostFault> {
    let mut options = OpenOptions::new();
    options.read(true);
    let (file, opened) = open_found(rt, &options, path, found)?;
    Ok((file, opened.len()))
}

// The regular file that was found at a path, and what the system says of it once it is open.
fn open_found<R: Files>(
    rt: &R,
    options: &OpenOptions,
    path: &str,
    found: &Metadata,
) -> Result<(R::File, Metadata), HostFault> {
    if !found.is_file() {
        return Err(HostFault::unwanted(&kind_of(found)));
    }
    let file = options.open(rt, path)?;
    let opened = file.metadata()?;
    if !is_same_file(found, &opened) {
        return Err(HostFault::Failed(Cause::Replaced));
    }
    Ok((file, opened))
}

/// The bytes of a file from `at` on, at most `max` of them, into room for `max`.
pub fn read_at_most<F: FileExt>(
    alloc: Global,
    file: &F,
    at: u64,
    max: u64,
) -> Result<Bytes, HostFault>
    ensures bound { IfOk result (λ bytes. length bytes ≤ max) }
{
    let mut bytes = vec![in alloc; 0u8; max as usize]?;
    let count = fill_from(file, bytes.as_mut_slice(), at)?;
    bytes.truncate(count);
    Ok(Bytes::from_vec(bytes))
}

// Fills the room with the file's bytes from `at` on, and answers how many there were: fewer only at the file's end.
fn fill_from<F: FileExt>(file: &F, room: &mut [u8], at: u64) -> Result<usize, HostFault>
    ensures within { IfOk result (λ count. count ≤ length room.new) }
{
    let mut count = 0;
    for _ in 0..u64::MAX {
        if count == room.len() {
            return Ok(count);
        }
        match file.read_at(&mut room[count..], at.saturating_add(count as u64)) {
            Ok(0) => return Ok(count),
            Ok(more) => count += more,
            Err(error) if error.kind() == ErrorKind::Interrupted => {}
            Err(error) => return Err(HostFault::from(error)),
        }
    }
    Err(HostFault::Failed(Cause::Unknown))
}

const EXECUTABLE: u32 = 0o755;

const PLAIN: u32 = 0o644;

const RIGHTS: u32 = 0o777;

const READ: u32 = 0o444;

const RUN: u32 = 0o111;

/// Makes an empty file and opens it, in place of a regular file that stands there.
pub fn create_file<R: Files>(rt: &R, path: &str, exec: bool) -> Result<R::File, HostFault> {
    if !exec {
        return replace_with(rt, path, PLAIN);
    }
    let file = replace_with(rt, path, EXECUTABLE)?;
    let_run(&file)?;
    Ok(file)
}

// A mask may have taken away every right to run the file: who may read it may run it then.
fn let_run(file: &impl OpenFile) -> Result<(), HostFault> {
    let mode = file.metadata()?.mode() & RIGHTS;
    if mode & RUN == 0 {
        file.set_permissions(Permissions::from_mode(mode | (mode & READ) >> 2))?;
    }
    Ok(())
}

fn replace_with<R: Files>(rt: &R, path: &str, mode: u32) -> Result<R::File, HostFault> {
    match make_new(rt, path, mode)? {
        Some(file) => Ok(file),
        None => {
            remove_regular(rt, path)?;
            make_again(rt, path, mode)
        }
    }
}

// Takes away the regular file that stands at a path, if one does.
fn remove_regular(rt: &impl Files, path: &str) -> Result<(), HostFault> {
    match kind_at(rt, path)? {
        Kind::Absent => Ok(()),
        Kind::File { .. } => Ok(fs::remove_file(rt, path)?),
        other => Err(HostFault::unwanted(&other)),
    }
}

// Makes an empty file at a path that was made free, and opens it.
fn make_again<R: Files>(rt: &R, path: &str, mode: u32) -> Result<R::File, HostFault> {
    make_new(rt, path, mode)?.ok_or(HostFault::Failed(Cause::Replaced))
}

/// Makes an empty file in place of anything but a folder: a link there is taken away and not written through.
pub fn fresh_file<R: Files>(rt: &R, path: &str) -> Result<(), HostFault> {
    if make_new(rt, path, PLAIN)?.is_some() {
        return Ok(());
    }
    unlink_at(rt, path)?;
    make_again(rt, path, PLAIN)?;
    Ok(())
}

// Takes away what stands at a path, which the system refuses where that is a folder.
fn unlink_at(rt: &impl Files, path: &str) -> Result<(), HostFault> {
    match fs::remove_file(rt, path) {
        Ok(()) => Ok(()),
        Err(error) => match error.kind() {
            ErrorKind::NotFound => Ok(()),
            _ => Err(HostFault::from(error)),
        },
    }
}

// Makes an empty file and opens it, where nothing stands.
fn make_new<R: Files>(rt: &R, path: &str, mode: u32) -> Result<Option<R::File>, HostFault> {
    let mut options = OpenOptions::new();
    options.append(true).create_new(true).mode(mode);
    match options.open(rt, path) {
        Ok(file) => Ok(Some(file)),
        Err(error) => match error.kind() {
            ErrorKind::AlreadyExists => Ok(None),
            _ => Err(HostFault::from(error)),
        },
    }
}

/// Adds bytes to the regular file at a path.
pub fn append_bytes(rt: &impl Files, path: &str, bytes: &[u8]) -> Result<(), HostFault> {
    let mut options = OpenOptions::new();
    options.append(true);
    let found = fs::symlink_metadata(rt, path)?;
    let (mut file, _) = open_found(rt, &options, path, &found)?;
    Ok(file.write_all(bytes)?)
}

/// Makes a folder and those above it that are missing.
pub fn make_folders(rt: &impl Files, path: &str) -> Result<(), HostFault> {
    match kind_at(rt, path)? {
        Kind::Folder => Ok(()),
        Kind::Absent => Ok(fs::create_dir_all(rt, path)?),
        other => Err(HostFault::unwanted(&other)),
    }
}

/// Gives a regular file a new name, in place of a regular file that has it, once what it holds has reached the disk.
pub fn rename_file<R: Files>(rt: &R, old: &str, new: &str) -> Result<(), HostFault> {
    let found = fs::symlink_metadata(rt, old)?;
    let (file, _) = open_to_read(rt, old, &found)?;
    rename_open(rt, &file, old, new)
}

/// Does the same for a file that is open already. To reach the disk may take seconds, in which another process may put
/// a file of its own there. So the file is compared with what is at the path after that, right before it is renamed.
pub fn rename_open<R: Files>(
    rt: &R,
    file: &R::File,
    old: &str,
    new: &str,
) -> Result<(), HostFault> {
    file.sync_data()?;
    let opened = file.metadata()?;
    check_free(rt, new)?;
    check_same(rt, old, &opened)?;
    Ok(fs::rename(rt, old, new)?)
}

// Refuses a path at which stands anything but a regular file.
fn check_free(rt: &impl Files, path: &str) -> Result<(), HostFault> {
    match kind_at(rt, path)? {
        Kind::File { .. } | Kind::Absent => Ok(()),
        other => Err(HostFault::unwanted(&other)),
    }
}

// Refuses a path at which another file stands than the one that was opened.
fn check_same(rt: &impl Files, path: &str, opened: &Metadata) -> Result<(), HostFault> {
    let found = fs::symlink_metadata(rt, path)?;
    if is_same_file(&found, opened) {
        Ok(())
    } else {
        Err(HostFault::Failed(Cause::Replaced))
    }
}

fn is_same_file(found: &Metadata, opened: &Metadata) -> bool {
    found.is_file() && opened.dev() == found.dev() && opened.ino() == found.ino()
}

/// Makes a link, where nothing stands.
pub fn make_link_at(rt: &impl Files, path: &str, target: &str) -> Result<(), HostFault> {
    Ok(symlink(rt, target, path)?)
}

/// The target of the link at a path. A target that is not UTF-8 is a failure.
pub fn link_target<R: Files + AllocGlobal>(rt: &R, path: &str) -> Result<Text, HostFault> {
    let target = fs::read_link(rt, path)?;
    Ok(Text::from_string(target.into_string()))
}

/// What the link at a path is taken for: one whose target is not UTF-8 is odd.
pub fn link_kind<R: Files + AllocGlobal>(rt: &R, path: &str) -> Result<Kind, HostFault> {
    match fs::read_link(rt, path) {
        Ok(_) => Ok(Kind::Link),
        Err(error) => match error.kind() {
            ErrorKind::InvalidFilename => Ok(Kind::Odd),
            _ => Err(HostFault::from(error)),
        },
    }
}
