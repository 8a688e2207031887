// The known word that a wrong one is nearest to.

use crate::commands::{COMMANDS, Command};
use cnb_world::Memory;
use std::alloc::Global;
use strsim::osa_distance;

/// Longer words are near to none.
const LONGEST_WORD: usize = 64;

/// The option of a command that is nearest to a word, if one is near.
pub(crate) fn nearest_option(
    alloc: Global,
    command: &Command,
    word: &str,
) -> Result<Option<&'static str>, Memory> {
    let mut nearest = Nearest::to(word);
    for name in command.must {
        nearest.see(alloc, name)?;
    }
    for name in command.may {
        nearest.see(alloc, name)?;
    }
    Ok(nearest.name)
}

/// The command, or other first word, that is nearest to a word, if one is near.
pub(crate) fn nearest_command(alloc: Global, word: &str) -> Result<Option<&'static str>, Memory> {
    let mut nearest = Nearest::to(word);
    for command in COMMANDS.iter() {
        nearest.see(alloc, command.name)?;
    }
    nearest.see(alloc, "--help")?;
    nearest.see(alloc, "--version")?;
    Ok(nearest.name)
}

// The nearest name of those seen, and how many edits it is away. A name that is to be nearer has to take fewer.
#[derive(Drop)]
struct Nearest<'a> {
    word: &'a str,
    distance: usize,
    name: Option<&'static str>,
}

impl<'a> Nearest<'a> {
    // One edit is near, and one more for each four bytes of the word.
    fn to(word: &'a str) -> Nearest<'a> {
        Nearest {
            word,
            distance: word.len() / 4 + 2,
            name: None,
        }
    }

    fn see(&mut self, alloc: Global, name: &'static str) -> Result<(), Memory> {
        let distance = distance_of(alloc, self.word, name)?;
        if distance < self.distance {
            self.distance = distance;
            self.name = Some(name);
        }
        Ok(())
    }
}

// A word that goes on where the other ends is one edit away.
fn distance_of(alloc: Global, word: &str, name: &str) -> Result<usize, Memory> {
    if word.len() > LONGEST_WORD {
        return Ok(usize::MAX);
    }
    if word.len() > 3 && (name.starts_with(word) || word.starts_with(name)) {
        return Ok(1);
    }
    Ok(osa_distance(alloc, word, name)?)
}
