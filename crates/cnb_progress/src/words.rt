// Words that are no command: the help that they ask for, or what is wrong with them.

use crate::commands::{Command, command_of};
use crate::forms::{absolute, wrong_value};
use crate::given::{Given, given_in};
use crate::nearest::{nearest_command, nearest_option};
use crate::options::{OptionRow, option_of};
use crate::usage::{help_of, overview, version};
use cnb_world::Memory;
use std::alloc::Global;

/// What is said of words that are no command. The first is the program's own; relative paths are taken from the folder that
/// the caller is in, if it is known.
pub(crate) fn explain_words(
    alloc: Global,
    words: &[String],
    folder: Option<&str>,
) -> Result<String, Memory> {
    match words {
        [program, rest @ ..] if is_launcher(program.as_str()) => {
            launcher_fault(alloc, program.as_str(), rest, folder)
        }
        [_, first, rest @ ..] => explain_command(alloc, first.as_str(), rest, folder),
        _ => overview(alloc),
    }
}

fn explain_command(
    alloc: Global,
    first: &str,
    rest: &[String],
    folder: Option<&str>,
) -> Result<String, Memory> {
    if first == "--version" {
        return version(alloc);
    }
    if first == "help" || is_help(first) {
        return help_behind(alloc, rest);
    }
    match command_of(first) {
        Some(command) if asks_help(command, rest) => help_of(alloc, command),
        Some(command) => fault_of(alloc, command, rest, folder),
        None => no_command(alloc, first),
    }
}

/// Whether words ask how `launch` is used, which it takes for the type of a process.
pub(crate) fn ask_for_launch(words: &[String]) -> bool {
    match words {
        [_, command, first, ..] => command.as_str() == "launch" && is_help(first.as_str()),
        _ => false,
    }
}

// Whether the words behind a command ask for its help. Those of a process are its own.
fn asks_help(command: &Command, words: &[String]) -> bool {
    match words {
        [first, ..] if is_help(first.as_str()) => true,
        _ => command.name != "launch" && words.iter().any(|word| is_help(word.as_str())),
    }
}

fn is_help(word: &str) -> bool {
    word == "--help" || word == "-h"
}

fn is_launcher(program: &str) -> bool {
    program == "launcher" || program.ends_with("cnb/lifecycle/launcher")
}

// By a relative path the program doesn't know that it is the launcher.
fn launcher_fault(
    alloc: Global,
    program: &str,
    words: &[String],
    folder: Option<&str>,
) -> Result<String, Memory> {
    if program == "launcher" || program.starts_with('/') {
        return launch_fault(alloc, words, folder);
    }
    let path = absolute(alloc, folder.unwrap_or(""), program)?;
    Ok(format!(in alloc;
        "a launcher has to be started by its absolute path; try {}",
        path.as_str().escape_debug()
    )?)
}

// The help of the command that is named behind `help`, or of all.
fn help_behind(alloc: Global, words: &[String]) -> Result<String, Memory> {
    match words {
        [name, ..] => match command_of(name.as_str()) {
            Some(command) => help_of(alloc, command),
            None => overview(alloc),
        },
        [] => overview(alloc),
    }
}

fn no_command(alloc: Global, word: &str) -> Result<String, Memory> {
    let mut text = format!(in alloc; "no command: '{}'", word.escape_debug())?;
    push_nearest(&mut text, nearest_command(alloc, word)?)?;
    text.push_str("\n`lifecycle --help` has the commands")?;
    Ok(text)
}

fn push_nearest(text: &mut String, nearest: Option<&str>) -> Result<(), Memory> {
    if let Some(name) = nearest {
        text.push_str("; did you mean ")?;
        text.push_str(name)?;
        text.push('?')?;
    }
    Ok(())
}

fn fault_of(
    alloc: Global,
    command: &Command,
    words: &[String],
    folder: Option<&str>,
) -> Result<String, Memory> {
    match command.name {
        "launch" => launch_fault(alloc, words, folder),
        "drill" => drill_fault(alloc, words),
        name => {
            let what = options_fault(alloc, command, words, folder)?;
            Ok(format!(in alloc; "{what}\n`lifecycle {name} --help` explains its options")?)
        }
    }
}

fn drill_fault(alloc: Global, words: &[String]) -> Result<String, Memory> {
    let what = match words {
        [word] => {
            format!(in alloc;
                "'{}' isn't a number from 0 to 4095 without a zero in front",
                word.as_str().escape_debug()
            )?
        }
        _ => String::from_str(alloc, "drill takes one number, from 0 to 4095")?,
    };
    Ok(format!(in alloc; "{what}; try lifecycle drill 9")?)
}

// `--root` and its path are two words, and behind `--` is a program.
fn launch_fault(alloc: Global, words: &[String], folder: Option<&str>) -> Result<String, Memory> {
    let fault = match words {
        [first, root, ..] if first.as_str() == "--root" => root_fault(
            alloc,
            root.as_str(),
            folder,
        )?,
        [first] if first.as_str() == "--root" => {
            Some(String::from_str(alloc, "--root: its path is missing; try --root /root")?)
        }
        _ => None,
    };
    match fault {
        Some(fault) => Ok(fault),
        None => Ok(String::from_str(
            alloc,
            "no program behind --; try -- <program>, or name a process type without --",
        )?),
    }
}

fn root_fault(alloc: Global, root: &str, folder: Option<&str>) -> Result<Option<String>, Memory> {
    match option_of("--root") {
        Some(option) => wrong_value(alloc, option, ' ', root, folder),
        None => Ok(None),
    }
}

// The first wrong word, or else the options that are missing.
fn options_fault(
    alloc: Global,
    command: &Command,
    words: &[String],
    folder: Option<&str>,
) -> Result<String, Memory> {
    let given = given_in(alloc, words)?;
    let given = given.as_slice();
    for (place, one) in given.iter().enumerate() {
        if let Some(fault) = given_fault(alloc, command, &given[..place], one, folder)? {
            return Ok(fault);
        }
    }
    missing(alloc, command, given)
}

// What is wrong with an option, or a word, behind those before it.
fn given_fault(
    alloc: Global,
    command: &Command,
    before: &[Given],
    given: &Given,
    folder: Option<&str>,
) -> Result<Option<String>, Memory> {
    let Some(option) = option_in(command, given.name) else {
        return unknown(alloc, command, given).map(Some);
    };
    if !option.is_repeated && before.iter().any(|other| other.name == option.name) {
        return Ok(Some(format!(in alloc; "{} is given twice", option.name)?));
    }
    match given.value {
        Some(value) => wrong_value(alloc, option, '=', value, folder),
        None => Ok(Some(format!(in alloc;
            "{}: its value is missing; try {}={}",
            option.name, option.name, option.example
        )?)),
    }
}

// A word that is no option of the command, and no value of one.
fn unknown(alloc: Global, command: &Command, given: &Given) -> Result<String, Memory> {
    match given.value {
        Some(word) if given.name.is_empty() && word.starts_with('-') => {
            no_option(alloc, command, word)
        }
        Some(word) if given.name.is_empty() => Ok(format!(in alloc;
            "'{}' is a word too many: it belongs to no option",
            word.escape_debug()
        )?),
        _ => no_option(alloc, command, given.name),
    }
}

fn option_in(command: &Command, name: &str) -> Option<&'static OptionRow> {
    if command.must.iter().any(|must| *must == name) || command.may.iter().any(|may| *may == name) {
        option_of(name)
    } else {
        None
    }
}

fn no_option(alloc: Global, command: &Command, name: &str) -> Result<String, Memory> {
    let mut text = format!(in alloc; "{} has no option '{}'", command.name, name.escape_debug())?;
    push_nearest(&mut text, nearest_option(alloc, command, name)?)?;
    Ok(text)
}

fn missing(alloc: Global, command: &Command, given: &[Given]) -> Result<String, Memory> {
    let mut text = String::new(alloc);
    for name in command.must {
        if !given.iter().any(|one| one.name == *name) {
            text.push_str(if text.is_empty() { "missing: " } else { ", " })?;
            push_placed(&mut text, name)?;
        }
    }
    if text.is_empty() {
        // Each word by itself is right, and only the place of the record has a rule of its own besides.
        text.push_str(
            "--record: no record can be written at /, nor in place of group.toml and plan.toml",
        )?;
    }
    Ok(text)
}

// An option with what stands for its value.
fn push_placed(text: &mut String, name: &str) -> Result<(), Memory> {
    text.push_str(name)?;
    if let Some(option) = option_of(name) {
        text.push(' ')?;
        text.push_str(option.kind.shown())?;
    }
    Ok(())
}
