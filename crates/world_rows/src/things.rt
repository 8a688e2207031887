// What stands in memory before a script, and what children do there.
use crate::cache::digest_of;
use crate::fault::LineFault;
use crate::memory::FOLDER;
use crate::texts::{cut, given, path_of, written_out};
use cnb_world::{Bytes, End, Held, Item, List, Placed, Play, Probed, Reply, Text};
use row_files::Row;
use std::alloc::Global;

fn push_item(
    alloc: Global,
    items: &mut List<Placed>,
    path: &str,
    item: Item,
) -> Result<(), LineFault> {
    let path = path_of(alloc, path)?;
    Ok(items.push(Placed { path, item })?)
}

// Adds a file with this text.
fn push_file(
    alloc: Global,
    items: &mut List<Placed>,
    path: &str,
    text: &str,
) -> Result<(), LineFault> {
    let bytes = Bytes::of(alloc, text.as_bytes())?;
    push_item(alloc, items, path, Item::File { exec: false, bytes })
}

/// The script's folder, the pipes, and a file for each line `PATH TEXT` of what is placed.
pub(crate) fn placed(alloc: Global, row: &Row) -> Result<List<Placed>, LineFault> {
    let mut items = List::new(alloc);
    push_item(alloc, &mut items, FOLDER, Item::Folder)?;
    for pipe in given(row, "pipes").split_whitespace() {
        let path = pipe.replace(alloc, "~", FOLDER)?;
        push_item(alloc, &mut items, path.as_str(), Item::Odd)?;
    }
    for line in given(row, "placed").lines() {
        let (path, text) = cut(line);
        push_file(alloc, &mut items, path, text)?;
    }
    Ok(items)
}

/// A play for each line `PROGRAM CODE SIDE CHANGES`.
pub(crate) fn plays(alloc: Global, row: &Row) -> Result<List<Play>, LineFault> {
    let mut plays = Vec::new(alloc);
    for line in given(row, "plays").lines() {
        plays.push(play(alloc, line)?)?;
    }
    Ok(List::from_vec(plays))
}

fn play(alloc: Global, line: &str) -> Result<Play, LineFault> {
    let (program, rest) = cut(line);
    let (code, rest) = cut(rest);
    let mut play = Play {
        program: Text::of(alloc, program)?,
        end: End {
            code: code.parse().ok(),
            side: Bytes::from_vec(Vec::new(alloc)),
        },
        removes: List::new(alloc),
        leaves: List::new(alloc),
    };
    match add_effects(alloc, &mut play, rest) {
        Ok(()) => Ok(play),
        Err(fault) => Err(fault),
    }
}

// Adds what a child writes, and what it changes.
fn add_effects(alloc: Global, play: &mut Play, text: &str) -> Result<(), LineFault> {
    let (side, changes) = cut(text);
    play.end.side.append(written_out(alloc, side)?.as_bytes())?;
    for change in changes.split_whitespace() {
        add_change(alloc, play, change)?;
    }
    Ok(())
}

fn add_change(alloc: Global, play: &mut Play, change: &str) -> Result<(), LineFault> {
    if let Some(path) = change.strip_prefix('-') {
        return Ok(play.removes.push(path_of(alloc, path)?)?);
    }
    match change.split_once('=') {
        Some((path, text)) => push_file(alloc, &mut play.leaves, path, text),
        None => push_item(alloc, &mut play.leaves, change, Item::Folder),
    }
}

/// A reply at version 1.0.0 for each line `ID CODE PLAN`.
pub(crate) fn replies(alloc: Global, lines: &str) -> Result<List<Reply>, LineFault> {
    let mut replies = Vec::new(alloc);
    for line in lines.lines() {
        replies.push(reply(alloc, line)?)?;
    }
    Ok(List::from_vec(replies))
}

fn reply(alloc: Global, line: &str) -> Result<Reply, LineFault> {
    let (id, rest) = cut(line);
    let (code, plan) = cut(rest);
    let plan = written_out(alloc, plan)?;
    Ok(Reply {
        id: Text::of(alloc, id)?,
        version: Text::of(alloc, "1.0.0")?,
        probed: Probed {
            code: code.parse().ok(),
            plan: Bytes::of(alloc, plan.as_str().as_bytes())?,
        },
    })
}

/// Bytes for each line `DIGEST TEXT`.
pub(crate) fn held(alloc: Global, lines: &str) -> Result<List<Held>, LineFault> {
    let mut held = Vec::new(alloc);
    for line in lines.lines() {
        let (digest, text) = cut(line);
        let digest = digest_of(alloc, digest)?;
        let bytes = Bytes::of(alloc, text.as_bytes())?;
        held.push(Held { digest, bytes })?;
    }
    Ok(List::from_vec(held))
}
