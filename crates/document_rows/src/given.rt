// What rows are given, and answers as they are told.
use cnb_toml::DocFault;
use cnb_world::Memory;
use row_files::{Row, RowFault};
use std::alloc::{AllocError, Global};

/// A value, where memory did not run out.
pub(crate) fn ample<T: Drop>(answer: Result<T, Memory>) -> Result<T, RowFault> {
    match answer {
        Ok(value) => Ok(value),
        Err(Memory) => Err(RowFault::Memory(AllocError)),
    }
}

/// What is told, or the fault's own text.
pub(crate) fn told(alloc: Global, answer: Result<String, DocFault>) -> Result<String, RowFault> {
    match answer {
        Ok(text) => Ok(text),
        Err(fault) => Ok(format!(in alloc; "{fault}")?),
    }
}

/// A text that is given: what stands under the name, then `part` as often as `times` says, then `end`.
pub(crate) fn given_text(alloc: Global, row: &Row, name: &str) -> Result<String, RowFault> {
    let mut text = String::from_str(alloc, row.text(alloc, name)?)?;
    if let Some(part) = row.given.get("part") {
        for _ in 0..row.number(alloc, "times")? {
            text.push_str(part.as_str())?;
        }
    }
    if let Some(end) = row.given.get("end") {
        text.push_str(end.as_str())?;
    }
    Ok(text)
}

/// Bytes that are given: those of `text`, or those that are written in `hex`.
pub(crate) fn given_bytes(alloc: Global, row: &Row) -> Result<Vec<u8>, RowFault> {
    if row.given.get("hex").is_none() {
        return Ok(given_text(alloc, row, "text")?.into_bytes());
    }
    let text = given_text(alloc, row, "hex")?;
    match hex::decode(alloc, text.as_str()) {
        Ok(bytes) => Ok(bytes),
        Err(_) => Err(RowFault::wrong(alloc, "no bytes are given as", "hex")),
    }
}
