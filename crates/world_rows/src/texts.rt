// The texts of rows, and of answers.
use crate::fault::LineFault;
use cnb_world::{List, Path};
use row_files::{Row, RowFault};
use std::alloc::{AllocError, Global};

/// More bytes than these are told by their number.
const MOST_SHOWN: usize = 4000;

/// The text that is given under a name, or none.
pub(crate) fn given<'a>(row: &'a Row, name: &str) -> &'a str {
    match row.given.get(name) {
        Some(text) => text.as_str(),
        None => "",
    }
}

/// What stands before the first blank, and what behind it.
pub(crate) fn cut(text: &str) -> (&str, &str) {
    text.split_once(' ').unwrap_or((text, ""))
}

/// The path that a text is.
pub(crate) fn path_of(alloc: Global, text: &str) -> Result<Path, RowFault> {
    match Path::parse(alloc, text) {
        Ok(path) => Ok(path),
        Err(_) => Err(RowFault::wrong(alloc, "no path:", text)),
    }
}

/// The number that a text is.
pub(crate) fn number_of(alloc: Global, text: &str) -> Result<u64, RowFault> {
    match text.parse() {
        Ok(number) => Ok(number),
        Err(_) => Err(RowFault::wrong(alloc, "no number:", text)),
    }
}

/// The numbers that are given under a name, with blanks between them.
pub(crate) fn numbers(alloc: Global, row: &Row, name: &str) -> Result<List<u64>, RowFault> {
    let mut numbers = Vec::new(alloc);
    for word in given(row, name).split_whitespace() {
        numbers.push(number_of(alloc, word)?)?;
    }
    Ok(List::from_vec(numbers))
}

/// The text with `{a*3}` written out as `aaa`, once.
pub(crate) fn written_out(alloc: Global, text: &str) -> Result<String, RowFault> {
    let mut whole = String::new(alloc);
    let (front, rest) = text.split_once('{').unwrap_or((text, ""));
    let (repeated, back) = rest.split_once('}').unwrap_or(("", rest));
    let (piece, times) = repeated.split_once('*').unwrap_or(("", "0"));
    whole.push_str(front)?;
    for _ in 0..number_of(alloc, times)? {
        whole.push_str(piece)?;
    }
    whole.push_str(back)?;
    Ok(whole)
}

/// Bytes as a line shows them: a line's end is written `\n`, and of many bytes only the number is told.
pub(crate) fn shown(alloc: Global, bytes: &[u8]) -> Result<String, AllocError> {
    if bytes.len() > MOST_SHOWN {
        return format!(in alloc; "{} bytes", bytes.len());
    }
    let text = String::from_utf8_lossy(alloc, bytes)?;
    text.as_str().replace(alloc, "\n", "\\n")
}

/// The text that a line of a script means: `\n` is a line's end.
pub(crate) fn meant(alloc: Global, text: &str) -> Result<String, AllocError> {
    text.replace(alloc, "\\n", "\n")
}

/// Adds the line of an answer.
pub(crate) fn add_line(
    told: &mut String,
    answer: Result<String, LineFault>,
) -> Result<(), RowFault> {
    match answer {
        Ok(text) => told.push_str(text.as_str())?,
        Err(LineFault::Failed) => told.push_str("failed")?,
        Err(LineFault::Row(fault)) => return Err(fault),
    }
    Ok(told.push_str("\n")?)
}
