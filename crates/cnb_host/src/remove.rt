// Removing what is at a path, and below it.

use crate::cause::Cause;
use crate::fault::HostFault;
use crate::files::kind_at;
use crate::names::push_text;
use cnb_world::Kind;
use std::alloc::Global;
use std::fs;
use std::fs::{DirEntry, Permissions};
use std::io::ErrorKind;
use std::os::unix::fs::{MetadataExt, PermissionsExt};
use std::rt::Files;

/// The rights of an owner who lists, enters and changes a folder.
const OWNER: u32 = 0o700;

const RIGHTS: u32 = 0o7777;

/// Removes what is at a path and below it. A link is removed, and not what it points to.
pub fn remove_at<R: Files + AllocGlobal + Clone + Drop>(
    rt: &R,
    path: &str,
) -> Result<(), HostFault> {
    if path == "/" {
        return Err(HostFault::Failed(Cause::Folder));
    }
    match kind_at(rt, path)? {
        Kind::Absent => Ok(()),
        Kind::Folder => remove_folder(rt, path),
        Kind::File { .. } | Kind::Link | Kind::Odd => Ok(fs::remove_file(rt, path)?),
    }
}

// Some tools leave folders that their owner can't write, as the module cache of Go: the owner is given that right.
fn remove_folder<R: Files + AllocGlobal + Clone + Drop>(
    rt: &R,
    path: &str,
) -> Result<(), HostFault> {
    match fs::remove_dir_all(rt, path) {
        Ok(()) => Ok(()),
        Err(error) => match error.kind() {
            ErrorKind::PermissionDenied => {
                open_below(rt, path)?;
                Ok(fs::remove_dir_all(rt, path)?)
            }
            _ => Err(HostFault::from(error)),
        },
    }
}

// Gives the owner every right to the folder at a path and to those below it.
fn open_below<R: Files + AllocGlobal + Clone + Drop>(rt: &R, path: &str) -> Result<(), HostFault> {
    let mut folders = Vec::new(rt.alloc());
    push_text(rt.alloc(), path, &mut folders)?;
    open_all(rt, &mut folders)
}

fn open_all<R: Files + AllocGlobal + Clone + Drop>(
    rt: &R,
    folders: &mut Vec<String>,
) -> Result<(), HostFault> {
    for _ in 0..u64::MAX {
        let Some(folder) = folders.pop() else {
            return Ok(());
        };
        open_one(rt, folder.as_str(), folders)?;
    }
    Err(HostFault::Failed(Cause::Unknown))
}

// Gives the right to one folder, and adds those below it to the others.
fn open_one<R: Files + AllocGlobal + Clone + Drop>(
    rt: &R,
    folder: &str,
    folders: &mut Vec<String>,
) -> Result<(), HostFault> {
    open_folder(rt, folder)?;
    push_folders(rt, folder, folders)
}

fn open_folder(rt: &impl Files, path: &str) -> Result<(), HostFault> {
    let mode = fs::symlink_metadata(rt, path)?.mode() & RIGHTS;
    if mode & OWNER != OWNER {
        fs::set_permissions(rt, path, Permissions::from_mode(mode | OWNER))?;
    }
    Ok(())
}

// The folders that are right below a folder; a link to one is none.
fn push_folders<R: Files + AllocGlobal + Clone + Drop>(
    rt: &R,
    folder: &str,
    folders: &mut Vec<String>,
) -> Result<(), HostFault> {
    for entry in fs::read_dir(rt, folder)? {
        match entry {
            Ok(entry) => push_folder(rt.alloc(), &entry, folders)?,
            // A name that is not UTF-8 can be removed, and a folder of such a name is as its owner left it.
            Err(error) if error.kind() == ErrorKind::InvalidFilename => {}
            Err(error) => return Err(HostFault::from(error)),
        }
    }
    Ok(())
}

fn push_folder<R: Files>(
    alloc: Global,
    entry: &DirEntry<R>,
    folders: &mut Vec<String>,
) -> Result<(), HostFault> {
    if entry.metadata()?.is_dir() {
        push_text(alloc, entry.path().as_str(), folders)?;
    }
    Ok(())
}
