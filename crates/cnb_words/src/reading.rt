// Reads options by `clap`.
ghost use Rattle.std.specs.Prelude.{◌≡◌, IfErr, IfOk, IsFalse, Err, Some, [], false, map, string_bytes};
ghost use Rattle.std.specs.List.{list_all};
ghost use Rattle.std.specs.Option.{option_and_then};
ghost use Rattle.clap.specs.Words.{app_of, rule_of};
ghost use Rattle.cnb_words.specs.Faults.{AreReadAs};
ghost use Rattle.cnb_words.specs.Options.{options_in};
ghost use Rattle.cnb_words.specs.Reading.{checked_for, is_in, is_plain, option_rule, reader};

use crate::fault::WordsFault;
use crate::options::Options;
use clap::builder::ValueParser;
use clap::{Arg, ArgAction, Command};
use std::alloc::{AllocError, Global};

// A dash leads a word only where it is the name of an option: there is no `-n`, and no `--` alone.
fn is_plain(word: &str) -> bool
    ensures { result ≡ is_plain word.now }
{
    match word.as_bytes() {
        [b'-', b'-', _, ..] => true,
        [b'-', ..] => false,
        _ => true,
    }
}

fn are_plain(words: &[String]) -> bool
    ensures { result ≡ list_all (λ word. is_plain (string_bytes word)) words.now }
{
    words.iter().all(|word| is_plain(word.as_str()))
}

fn option<'a>(alloc: Global, name: &'a str, action: ArgAction) -> Arg<'a>
    ensures rule { rule_of result ≡ option_rule action name.now }
    ensures local { result.global ≡ false }
{
    Arg::new(alloc, name)
        .long(name)
        .action(action)
        .value_parser(ValueParser::NonEmptyString)
}

fn reader<'a>(alloc: Global, once: &[&'a str], often: &[&'a str]) -> Result<Command<'a>, AllocError>
    ensures { IfOk result (λ command. app_of command
        ≡ reader (map (λ name. name.now) once.now) (map (λ name. name.now) often.now)) }
{
    let mut command = Command::new(alloc, "")
        .no_binary_name(true)
        .disable_help_flag(true);
    for name in once {
        command = command.arg(option(alloc, name, ArgAction::Set))?;
    }
    for name in often {
        command = command.arg(option(alloc, name, ArgAction::Append))?;
    }
    Ok(command)
}

/// The options that words give: those of the first names at most once, the others as often as they stand.
pub(crate) fn read_options<'a>(
    alloc: Global,
    once: &[&'a str],
    often: &[&'a str],
    words: &'a [String],
) -> Result<Options<'a>, WordsFault>
    requires once { IsFalse (is_in [] (map (λ name. name.now) once.now)) }
    requires often { IsFalse (is_in [] (map (λ name. name.now) often.now)) }
    ensures options { IfOk result (λ options. options_in (map string_bytes words.now) ≡ Some options) }
    ensures checked { IfOk result (λ options. checked_for
        (map (λ name. name.now) once.now) (map (λ name. name.now) often.now) options ≡ Some tt) }
    ensures refused { IfErr result (λ fault. AreReadAs (Err fault) (option_and_then
        (checked_for (map (λ name. name.now) once.now) (map (λ name. name.now) often.now))
        (options_in (map string_bytes words.now)))) }
{
    if !are_plain(words) {
        return Err(WordsFault::Usage);
    }
    let matches = reader(alloc, once, often)?.try_get_matches_from(words)?;
    Ok(Options { words, matches })
}
