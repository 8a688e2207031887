// The names in a folder.
ghost use Rattle.std.specs.Prelude.{◌≡◌, ◌<◌, ◌+◌, [], IfOk, IsTrue, length, map, slice_index_or, string_bytes};
ghost use Rattle.std.specs.List.{list_all};
ghost use Rattle.std.specs.Ordering.{nat_cmp};
ghost use Rattle.std.specs.declared.cmp.Ordering.TheVariants.{Less};
ghost use Rattle.std.specs.Cmp.Lexicographic.{slice_cmp};
ghost use Rattle.cnb_world.specs.Calls.{AreNames};
ghost use Rattle.cnb_world.specs.Path.{is_part, is_part_byte};

use crate::cause::Cause;
use crate::fault::HostFault;
use crate::files::kind_at;
use cnb_world::{Kind, List, Memory, Text};
use std::alloc::Global;
use std::fs;
use std::rt::Files;

/// The names in a folder, ascending. A name that is no part of a path, or is not UTF-8, is a failure.
pub fn names_in<R: Files + AllocGlobal + Clone + Drop>(
    rt: &R,
    path: &str,
) -> Result<List<Text>, HostFault>
    ensures names { IfOk result AreNames }
{
    match kind_at(rt, path)? {
        Kind::Folder => names_of(rt.alloc(), read_names(rt, path)?),
        other => Err(HostFault::unwanted(&other)),
    }
}

fn read_names<R: Files + AllocGlobal + Clone + Drop>(
    rt: &R,
    path: &str,
) -> Result<Vec<String>, HostFault> {
    let mut names = Vec::new(rt.alloc());
    push_names(rt, path, &mut names)?;
    names.sort()?;
    Ok(names)
}

fn push_names<R: Files + AllocGlobal + Clone + Drop>(
    rt: &R,
    path: &str,
    names: &mut Vec<String>,
) -> Result<(), HostFault> {
    for entry in fs::read_dir(rt, path)? {
        let entry = entry?;
        push_text(rt.alloc(), entry.file_name(), names)?;
    }
    Ok(())
}

/// Adds a copy of a text.
pub fn push_text(alloc: Global, text: &str, texts: &mut Vec<String>) -> Result<(), HostFault> {
    Ok(texts.push(String::from_str(alloc, text)?)?)
}

fn names_of(alloc: Global, names: Vec<String>) -> Result<List<Text>, HostFault>
    ensures names { IfOk result AreNames }
    ensures all { IfOk result (λ texts. texts ≡ map string_bytes names.items) }
{
    let texts = texts_of(alloc, names)?;
    if !are_names(texts.as_slice()) {
        return Err(HostFault::Failed(Cause::NotText));
    }
    Ok(texts)
}

fn texts_of(alloc: Global, names: Vec<String>) -> Result<List<Text>, Memory>
    ensures { IfOk result (λ texts. texts ≡ map string_bytes names.items) }
{
    let mut texts = List::new(alloc);
    for name in names {
        texts.push(Text::from_string(name))?;
    }
    Ok(texts)
}

// From the last name to the first.
fn are_names(names: &[Text]) -> bool
    ensures { IsTrue result → AreNames names.now }
{
    for at in (0..names.len()).rev() {
        if !is_part(names[at].as_str().as_bytes()) || !is_before_next(names, at) {
            return false;
        }
    }
    true
}

fn is_before_next(names: &[Text], at: usize) -> bool
    requires { at < length names.now }
    ensures { IsTrue result → at + 1 < length names.now
        → slice_cmp nat_cmp (slice_index_or names.now at []) (slice_index_or names.now (at + 1) []) ≡ Less }
{
    at + 1 == names.len() || names[at].as_str() < names[at + 1].as_str()
}

fn is_part(name: &[u8]) -> bool
    ensures { result ≡ is_part name.now }
{
    !name.is_empty()
        && name.len() <= 255
        && name != b".".as_slice()
        && name != b"..".as_slice()
        && has_part_bytes(name)
}

fn has_part_bytes(name: &[u8]) -> bool
    ensures { result ≡ list_all is_part_byte name.now }
{
    name.iter().all(|byte| *byte != b'/' && *byte != 0)
}
