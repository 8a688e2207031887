// What a process was started with.
ghost use Rattle.std.specs.Prelude.{◌≤◌, IfOk, length};

use crate::fault::LineFault;
use crate::texts::{given, shown, written_out};
use crate::variables::told;
use cnb_host::{StartFault, environment, words};
use row_files::{Row, RowFault};
use std::alloc::{AllocError, Global};
use std::env::FillError;
use std::rt::Env;

// A process with these words and these entries of its environment.
#[derive(Drop)]
struct Started {
    alloc: Global,
    texts: Vec<Vec<u8>>,
}

impl Alloc for Started {
    type A = Global;

    fn alloc(&self) -> Global {
        self.alloc
    }
}

impl Started {
    fn text(&self, place: usize, buf: &mut [u8]) -> Result<usize, FillError>
        ensures { IfOk result (λ count. count ≤ length buf.new) }
    {
        match self.texts.get(place) {
            None => Err(FillError::NotPresent),
            Some(text) if text.len() > buf.len() => Err(FillError::TooLong),
            Some(text) => {
                buf[..text.len()].copy_from_slice(text);
                Ok(text.len())
            }
        }
    }
}

impl Env for Started {
    fn arg(&self, i: usize, buf: &mut [u8]) -> Result<usize, FillError> {
        self.text(i, buf)
    }

    fn var(&self, _name: &str, _buf: &mut [u8]) -> Result<usize, FillError> {
        Err(FillError::NotPresent)
    }

    fn var_at(&self, i: usize, buf: &mut [u8]) -> Result<usize, FillError> {
        self.text(i, buf)
    }
}

// A process with the given lines, of which each character stands for the byte of its number.
fn process_of(alloc: Global, row: &Row) -> Result<Started, RowFault> {
    let mut texts = Vec::new(alloc);
    for line in row.text(alloc, "lines")?.lines() {
        texts.push(bytes_of(alloc, written_out(alloc, line)?.as_str())?)?;
    }
    Ok(Started { alloc, texts })
}

fn bytes_of(alloc: Global, text: &str) -> Result<Vec<u8>, AllocError> {
    let mut bytes = Vec::new(alloc);
    for c in text.chars() {
        bytes.push(u8::try_from(u32::from(c)).unwrap_or(0))?;
    }
    Ok(bytes)
}

/// The words that a process with the given lines reads.
pub(crate) fn read_words(alloc: Global, row: &Row) -> Result<String, LineFault> {
    let mut told = String::new(alloc);
    match words(&process_of(alloc, row)?) {
        Ok(words) => {
            for word in &words {
                told.push_str(shown(alloc, word.as_str().as_bytes())?.as_str())?;
                told.push_str("\n")?;
            }
        }
        Err(StartFault::NotText) => told.push_str("not text\n")?,
        Err(StartFault::Memory) => return Err(AllocError.into()),
    }
    Ok(told)
}

/// The environment that a process with the given lines reads.
pub(crate) fn read_environment(alloc: Global, row: &Row) -> Result<String, LineFault> {
    let env = environment(&process_of(alloc, row)?)?;
    told(alloc, &env, given(row, "asked"))
}
