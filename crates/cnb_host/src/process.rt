// What the process was started with.

use cnb_world::{Env, Memory, Text};
use std::alloc::{AllocError, Global};
use std::env::FillError;
use std::io::ErrorKind;
use std::{env, io, rt, str};

/// Why the words that the process was started with can't be handed on.
#[derive(Clone, Copy, Debug, PartialEq, Eq)]
pub enum StartFault {
    NotText,
    Memory,
}

impl From<io::Error> for StartFault {
    fn from(error: io::Error) -> Self {
        match error.kind() {
            ErrorKind::OutOfMemory => StartFault::Memory,
            _ => StartFault::NotText,
        }
    }
}

impl From<AllocError> for StartFault {
    fn from(_: AllocError) -> Self {
        StartFault::Memory
    }
}

/// The words of the process, its own name first.
pub fn words<R: rt::Env + AllocGlobal>(rt: &R) -> Result<Vec<String>, StartFault> {
    Ok(env::args(rt)?.collect(rt.alloc())?)
}

/// The environment of the process. A variable that is not UTF-8 or has no name is left out; of two with one name the
/// first counts.
pub fn environment<R: rt::Env + AllocGlobal>(rt: &R) -> Result<Env, Memory> {
    let mut variables = Env::new(rt.alloc());
    add_entries(rt, &mut variables)?;
    Ok(variables)
}

fn add_entries<R: rt::Env + AllocGlobal>(rt: &R, variables: &mut Env) -> Result<(), Memory> {
    for place in 0..usize::MAX {
        if !add_entry_at(rt, variables, place)? {
            return Ok(());
        }
    }
    Err(Memory)
}

// Adds the entry at a place. Returns whether there is one.
fn add_entry_at<R: rt::Env + AllocGlobal>(
    rt: &R,
    variables: &mut Env,
    place: usize,
) -> Result<bool, Memory> {
    match entry_at(rt, place)? {
        Some(entry) => add_bytes(rt.alloc(), variables, &entry),
        None => Ok(false),
    }
}

fn add_bytes(alloc: Global, variables: &mut Env, entry: &[u8]) -> Result<bool, Memory> {
    if let Ok(text) = str::from_utf8(entry) {
        add_entry(alloc, variables, text)?;
    }
    Ok(true)
}

fn add_entry(alloc: Global, variables: &mut Env, entry: &str) -> Result<(), Memory> {
    match entry.split_once('=') {
        Some((name, value)) if !name.is_empty() && variables.get(name).is_none() => {
            set_entry(alloc, variables, name, value)
        }
        _ => Ok(()),
    }
}

fn set_entry(alloc: Global, variables: &mut Env, name: &str, value: &str) -> Result<(), Memory> {
    variables.set(Text::of(alloc, name)?, Text::of(alloc, value)?)
}

const FIRST_ROOM: usize = 4096;

const TRIES: usize = 40;

// The bytes of the entry at a place, where there is one, into room that is doubled until they fit.
fn entry_at<R: rt::Env + AllocGlobal>(rt: &R, place: usize) -> Result<Option<Vec<u8>>, Memory> {
    let mut room = FIRST_ROOM;
    for _ in 0..TRIES {
        let mut entry = vec![in rt.alloc(); 0u8; room]?;
        match rt.var_at(place, entry.as_mut_slice()) {
            Ok(len) => {
                entry.truncate(len);
                return Ok(Some(entry));
            }
            Err(FillError::NotPresent) => return Ok(None),
            Err(FillError::TooLong) => room = room.saturating_mul(2),
        }
    }
    Err(Memory)
}
