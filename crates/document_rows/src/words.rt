// What the words of a command line ask for.
use crate::given::given_text;
use crate::options;
use cnb_words::{Asked, WordsFault, read_words};
use row_files::{Row, RowFault};
use std::alloc::{AllocError, Global};

// A line's words, which spaces part.
fn words_in(alloc: Global, line: &str) -> Result<Vec<String>, RowFault> {
    let mut words = Vec::new(alloc);
    for word in line.split(' ') {
        words.push(String::from_str(alloc, word)?)?;
    }
    Ok(words)
}

fn add_command(text: &mut String, asked: &Asked) -> Result<(), AllocError> {
    match asked {
        Asked::Detect(options) => options::detect(text, options),
        Asked::Analyze(options) => options::analyze(text, options),
        Asked::Restore(options) => options::restore(text, options),
        Asked::Build(options) => options::build(text, options),
        Asked::Export(options) => options::export(text, options),
        Asked::Create(options) => options::create(text, options),
        Asked::Rebase(options) => options::rebase(text, options),
        Asked::Base(options) => options::base(text, options),
        Asked::Unpack(options) => options::unpack(text, options),
        Asked::Show(options) => options::show(text, options),
        Asked::Prune(options) => options::prune(text, options),
        Asked::Verify(options) => options::verify(text, options),
        Asked::Check(options) => options::check(text, options),
        Asked::Drill(options) => options::drill(text, options),
        Asked::Launch(options) => options::launch(text, options),
    }
}

fn asked_text(alloc: Global, asked: &Asked) -> Result<String, AllocError> {
    let mut text = String::new(alloc);
    add_command(&mut text, asked)?;
    options::add_paths(&mut text, "cache", asked.caches())?;
    Ok(text)
}

fn fault_text(alloc: Global, fault: &WordsFault) -> Result<String, AllocError> {
    match fault {
        WordsFault::Usage => String::from_str(alloc, "usage"),
        WordsFault::Memory => String::from_str(alloc, "out of memory"),
    }
}

fn answer_text(alloc: Global, answer: &Result<Asked, WordsFault>) -> Result<String, AllocError> {
    match answer {
        Ok(asked) => asked_text(alloc, asked),
        Err(fault) => fault_text(alloc, fault),
    }
}

// What words ask for.
fn asked(alloc: Global, words: &[String]) -> Result<String, AllocError> {
    let answer = read_words(alloc, words);
    answer_text(alloc, &answer)
}

/// What the given words ask for: the command with each of its options, or the fault.
pub(crate) fn told_words(alloc: Global, row: &Row) -> Result<String, RowFault> {
    let line = given_text(alloc, row, "words")?;
    let words = words_in(alloc, line.as_str())?;
    Ok(asked(alloc, words.as_slice())?)
}

/// The first word of what the given words ask for: the command, or `usage`.
pub(crate) fn told_command(alloc: Global, row: &Row) -> Result<String, RowFault> {
    let text = told_words(alloc, row)?;
    match text.as_str().split_once(' ') {
        Some((command, _)) => Ok(String::from_str(alloc, command)?),
        None => Ok(String::from_str(alloc, text.as_str())?),
    }
}

/// What no word asks for.
pub(crate) fn told_no_words(alloc: Global) -> Result<String, RowFault> {
    Ok(asked(alloc, &[])?)
}
