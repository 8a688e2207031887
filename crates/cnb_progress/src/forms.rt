// The forms that the values of options have to have.

use crate::options::{Kind, OptionRow};
use cnb_toml::{ImageName, is_target_name};
use cnb_world::{Memory, Path};
use std::alloc::Global;

/// What is wrong with the value of an option, and the right form, with this mark between the two; nothing where it is right.
/// Relative paths are taken from the folder that the caller is in, if it is known.
pub(crate) fn wrong_value(
    alloc: Global,
    option: &OptionRow,
    mark: char,
    value: &str,
    folder: Option<&str>,
) -> Result<Option<String>, Memory> {
    let Some(wrong) = fault_of(option.kind, value) else {
        return Ok(None);
    };
    let name = option.name;
    let right = right_form(alloc, option.kind, value, folder)?;
    let right = match &right {
        Some(right) if fault_of(option.kind, right.as_str()).is_none() => right.as_str(),
        _ => option.example,
    };
    Ok(Some(format!(in alloc;
        "{name}: '{}' {wrong}; try {name}{mark}{}",
        value.escape_debug(),
        right.escape_debug()
    )?))
}

// What keeps a text from being a value of this kind.
fn fault_of(kind: Kind, value: &str) -> Option<&'static str> {
    match kind {
        Kind::Path => path_fault(value),
        Kind::Name => (!ImageName::is_name(value)).then_some(
            "isn't an image's name: 1 to 128 small letters, digits, '.', '_' and '-', a letter or digit first",
        ),
        Kind::Os | Kind::Arch => (!is_target_name(value)).then_some(
            "isn't a name of 1 to 64 small letters, digits, '.', '_' and '-', a letter or digit first",
        ),
        Kind::Workers => (!is_workers(value)).then_some(
            "isn't a number from 1 to 64 in decimal digits without a zero in front",
        ),
    }
}

fn path_fault(value: &str) -> Option<&'static str> {
    if Path::is_short(value) {
        None
    } else if !value.starts_with('/') {
        Some("isn't an absolute path")
    } else if value.ends_with('/') {
        Some("ends in a slash")
    } else if value.len() > 4096 {
        Some("has more than 4,096 bytes")
    } else {
        Some("has an empty part, '.' or '..', or a part of more than 255 bytes")
    }
}

fn is_workers(value: &str) -> bool {
    !value.starts_with('0')
        && value.bytes().all(|byte| byte.is_ascii_digit())
        && matches!(value.parse::<u32>(), Ok(1..=64))
}

// What was probably meant, where there is a way to see it.
fn right_form(
    alloc: Global,
    kind: Kind,
    value: &str,
    folder: Option<&str>,
) -> Result<Option<String>, Memory> {
    match (kind, folder) {
        (Kind::Path, Some(folder)) => absolute(alloc, folder, value).map(Some),
        (Kind::Path, None) if value.starts_with('/') => absolute(alloc, "", value).map(Some),
        (Kind::Path, None) => Ok(None),
        (Kind::Name | Kind::Os | Kind::Arch, _) => name_like(alloc, value).map(Some),
        (Kind::Workers, _) => Ok(None),
    }
}

/// The path from a folder, without empty parts, `.` and `..`.
pub(crate) fn absolute(alloc: Global, folder: &str, value: &str) -> Result<String, Memory> {
    let mut parts = Vec::new(alloc);
    if !value.starts_with('/') {
        push_parts(&mut parts, folder)?;
    }
    push_parts(&mut parts, value)?;
    let mut path = String::new(alloc);
    for part in parts.as_slice() {
        path.push('/')?;
        path.push_str(part)?;
    }
    if path.is_empty() {
        path.push('/')?;
    }
    Ok(path)
}

fn push_parts<'a>(parts: &mut Vec<&'a str>, path: &'a str) -> Result<(), Memory> {
    for part in path.split('/') {
        if part == ".." {
            let _ = parts.pop();
        } else if !part.is_empty() && part != "." {
            parts.push(part)?;
        }
    }
    Ok(())
}

// A text in small letters, with '-' for what a name can't hold.
fn name_like(alloc: Global, value: &str) -> Result<String, Memory> {
    let mut name = String::new(alloc);
    for letter in value.chars() {
        let letter = letter.to_ascii_lowercase();
        if letter.is_ascii_lowercase() || letter.is_ascii_digit() {
            name.push(letter)?;
        } else if !name.is_empty() {
            name.push(if matches!(letter, '.' | '_') {
                letter
            } else {
                '-'
            })?;
        }
    }
    Ok(name)
}
