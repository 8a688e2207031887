// How the program and its commands are used.

use crate::commands::{COMMANDS, Command};
use crate::options::{OptionRow, option_of};
use cnb_world::Memory;
use std::alloc::Global;

/// The day that names the state of the program (CHANGELOG.md).
const VERSION: &str = "2 December 2026";

/// The program's name, its version and the interfaces that it serves.
pub(crate) fn version(alloc: Global) -> Result<String, Memory> {
    Ok(format!(in alloc; "lifecycle {VERSION} (Platform API 0.12, Buildpack API 0.10)")?)
}

/// All commands, a line each.
pub(crate) fn overview(alloc: Global) -> Result<String, Memory> {
    let mut text = String::from_str(
        alloc,
        "lifecycle builds images from source by buildpacks\n\
         usage: lifecycle <command> [<option> ..]\n\
         commands:\n",
    )?;
    for command in COMMANDS.iter() {
        let line = format!(in alloc; "    {:<9}{}\n", command.name, command.summary)?;
        text.push_str(line.as_str())?;
    }
    text.push_str("`lifecycle <command> --help` explains the options of a command")?;
    Ok(text)
}

/// A command: what it does, its options and an example.
pub(crate) fn help_of(alloc: Global, command: &Command) -> Result<String, Memory> {
    let usage = usage_of(alloc, command)?;
    let mut text = format!(in alloc; "lifecycle {} {}\n{usage}\n", command.name, command.summary)?;
    for name in command.must {
        push_option(alloc, &mut text, name, false)?;
    }
    for name in command.may {
        push_option(alloc, &mut text, name, true)?;
    }
    push_example(&mut text, command)?;
    Ok(text)
}

/// The line of a command's usage.
pub(crate) fn usage_of(alloc: Global, command: &Command) -> Result<String, Memory> {
    let mut line = format!(in alloc; "usage: lifecycle {}", command.name)?;
    for name in command.must {
        if let Some(option) = option_of(name) {
            push_needed(&mut line, option)?;
        }
    }
    for name in command.may {
        if let Some(option) = option_of(name) {
            push_in_brackets(&mut line, option)?;
        }
    }
    push_word(&mut line, command.words)?;
    Ok(line)
}

fn push_word(line: &mut String, word: &str) -> Result<(), Memory> {
    if !word.is_empty() {
        line.push(' ')?;
        line.push_str(word)?;
    }
    Ok(())
}

fn push_needed(line: &mut String, option: &OptionRow) -> Result<(), Memory> {
    push_word(line, option.name)?;
    push_word(line, option.kind.shown())?;
    if option.is_repeated {
        push_in_brackets(line, option)?;
    }
    Ok(())
}

fn push_in_brackets(line: &mut String, option: &OptionRow) -> Result<(), Memory> {
    line.push_str(" [")?;
    line.push_str(option.name)?;
    push_word(line, option.kind.shown())?;
    if option.is_repeated {
        line.push_str(" ..")?;
    }
    line.push(']')?;
    Ok(())
}

// The line of an option, with its default where it may be left out.
fn push_option(
    alloc: Global,
    text: &mut String,
    name: &str,
    has_default: bool,
) -> Result<(), Memory> {
    let Some(option) = option_of(name) else {
        return Ok(());
    };
    let shown = format!(in alloc; "{name} {}", option.kind.shown())?;
    let line = format!(in alloc; "    {shown:<22}{}", option.meaning)?;
    text.push_str(line.as_str())?;
    if has_default {
        let line = format!(in alloc; " (default: {})", option.default)?;
        text.push_str(line.as_str())?;
    }
    let line = format!(in alloc; ", as {name} {}\n", option.example)?;
    text.push_str(line.as_str())?;
    Ok(())
}

// A whole call of the command.
fn push_example(text: &mut String, command: &Command) -> Result<(), Memory> {
    text.push_str("example: lifecycle ")?;
    text.push_str(command.name)?;
    for name in command.must {
        if let Some(option) = option_of(name) {
            push_word(text, option.name)?;
            push_word(text, option.example)?;
        }
    }
    push_word(text, command.example)
}
