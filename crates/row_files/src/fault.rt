// Why a row gives no answer.
use std::alloc::{AllocError, Global};
use std::io;
use thiserror::Error;

/// Why a row, or a file of rows, gives no answer. `Wrong` is a fault of what was written.
#[derive(Debug, Drop, Error)]
pub enum RowFault {
    #[error(transparent)]
    Memory(#[from(alloc)] AllocError),
    #[error("{0}")]
    Wrong(String),
    #[error(transparent)]
    Files(#[from] io::Error),
}

impl RowFault {
    /// A fault of what was written: this text, and the word that it speaks of.
    pub fn wrong(alloc: Global, text: &str, word: &str) -> RowFault {
        match format!(in alloc; "{text} `{word}`") {
            Ok(text) => RowFault::Wrong(text),
            Err(error) => RowFault::Memory(error),
        }
    }
}
