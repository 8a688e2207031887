// Calls on files.
use crate::fault::LineFault;
use crate::stage::Line;
use crate::texts::{cut, meant, number_of, path_of, shown};
use cnb_world::{Kind, Path, Text, Whole, World, read_whole, write_whole};
use row_files::RowFault;
use std::alloc::{AllocError, Global};

/// The answer of a call that changes nothing.
pub(crate) fn look<W: World>(
    alloc: Global,
    world: &mut W,
    line: Line,
) -> Result<String, LineFault> {
    let path = path_of(alloc, line.first)?;
    match line.call {
        "kind" => Ok(kind_text(alloc, world.kind(&path)?)?),
        "list" => Ok(names_text(alloc, world.list(&path)?.as_slice())?),
        "read_link" => Ok(String::from_str(alloc, world.read_link(&path)?.as_str())?),
        "read_whole" => whole_text(alloc, world, &path, number_of(alloc, line.rest)?),
        _ => {
            let (at, most) = cut(line.rest);
            let bytes = world.read(&path, number_of(alloc, at)?, number_of(alloc, most)?)?;
            Ok(shown(alloc, bytes.as_slice())?)
        }
    }
}

fn kind_text(alloc: Global, kind: Kind) -> Result<String, AllocError> {
    match kind {
        Kind::Absent => String::from_str(alloc, "absent"),
        Kind::File { exec: false, len } => format!(in alloc; "file of {len}"),
        Kind::File { exec: true, len } => format!(in alloc; "executable of {len}"),
        Kind::Folder => String::from_str(alloc, "folder"),
        Kind::Link => String::from_str(alloc, "link"),
        Kind::Odd => String::from_str(alloc, "odd"),
    }
}

fn names_text(alloc: Global, names: &[Text]) -> Result<String, AllocError> {
    let mut text = String::from_str(alloc, "names")?;
    for name in names {
        text.push_str(" ")?;
        text.push_str(name.as_str())?;
    }
    Ok(text)
}

fn whole_text<W: World>(
    alloc: Global,
    world: &mut W,
    path: &Path,
    limit: u64,
) -> Result<String, LineFault> {
    match read_whole(world, path, limit)? {
        Whole::Absent => Ok(String::from_str(alloc, "absent")?),
        Whole::Large(len) => Ok(format!(in alloc; "large, {len}")?),
        Whole::Bytes(bytes) => Ok(shown(alloc, bytes.as_slice())?),
    }
}

/// Makes a call that changes files.
pub(crate) fn change<W: World>(alloc: Global, world: &mut W, line: Line) -> Result<(), LineFault> {
    let path = path_of(alloc, line.first)?;
    match line.call {
        "make_folder" => Ok(world.make_folder(&path)?),
        "create" => Ok(world.create(&path, false)?),
        "create_executable" => Ok(world.create(&path, true)?),
        "append" => Ok(world.append(&path, meant(alloc, line.rest)?.as_bytes())?),
        "rename" => Ok(world.rename(&path, &path_of(alloc, line.rest)?)?),
        "make_link" => Ok(world.make_link(&path, line.rest)?),
        "remove" => Ok(world.remove(&path)?),
        "write_whole" => write(alloc, world, &path, meant(alloc, line.rest)?.as_str()),
        "script" => script(alloc, world, &path, line.rest),
        call => Err(RowFault::wrong(alloc, "no such call:", call).into()),
    }
}

// Writes a whole file, where its path allows it.
fn write<W: World>(alloc: Global, world: &mut W, path: &Path, text: &str) -> Result<(), LineFault> {
    let mut beside = String::from_str(alloc, path.as_str())?;
    beside.push_str(".new")?;
    if !Path::is_path(beside.as_str()) || path.as_str() == "/" {
        return Err(LineFault::Failed);
    }
    Ok(write_whole(alloc, world, path, text.as_bytes())?)
}

// Makes a program of these lines of the shell.
fn script<W: World>(
    alloc: Global,
    world: &mut W,
    path: &Path,
    lines: &str,
) -> Result<(), LineFault> {
    let text = format!(in alloc; "#!/bin/sh\n{lines}\n")?;
    world.create(path, true)?;
    Ok(world.append(path, text.as_bytes())?)
}
