// What a call answers, as a program of rows writes it.
use crate::fault::RowFault;
use cnb_world::{Memory, Text};
use std::alloc::{AllocError, Global};
use std::fmt::{Debug, Display};

/// The text that a call answers, piece by piece. The first fault, of memory or of the row, is kept: what is written
/// after it doesn't count, so only the end asks for it.
#[derive(Drop)]
pub struct Answer {
    pub alloc: Global,
    text: String,
    fault: Option<RowFault>,
}

impl Answer {
    pub fn new(alloc: Global) -> Answer {
        Answer {
            alloc,
            text: String::new(alloc),
            fault: None,
        }
    }

    /// The text, or the first fault.
    pub fn end(self) -> Result<String, RowFault> {
        let Answer {
            alloc: _,
            text,
            fault,
        } = self;
        match fault {
            Some(fault) => Err(fault),
            None => Ok(text),
        }
    }

    /// The text without the end of its last line, or the first fault.
    pub fn end_of_line(self) -> Result<String, RowFault> {
        let mut text = self.end()?;
        if text.ends_with('\n') {
            text.pop();
        }
        Ok(text)
    }

    /// Keeps a fault.
    pub fn fail(&mut self, fault: RowFault) {
        if self.fault.is_none() {
            self.fault = Some(fault);
        }
    }

    /// Memory ran out.
    pub fn run_out(&mut self) {
        self.fail(RowFault::Memory(AllocError));
    }

    /// The row is at fault: this text, and the word that it speaks of.
    pub fn wrong(&mut self, text: &str, word: &str) {
        self.fail(RowFault::wrong(self.alloc, text, word));
    }

    fn check(&mut self, is_written: bool) {
        if !is_written {
            self.run_out();
        }
    }

    /// Adds a text.
    pub fn put(&mut self, text: &str) {
        let is_written = self.text.push_str(text).is_ok();
        self.check(is_written);
    }

    /// Adds texts, one after another.
    pub fn put_all(&mut self, texts: &[&str]) {
        for text in texts {
            self.put(text);
        }
    }

    /// The text of another answer, whose fault is kept here.
    pub fn taken(&mut self, other: Answer) -> String {
        match other.end() {
            Ok(text) => text,
            Err(fault) => {
                self.fail(fault);
                String::new(self.alloc)
            }
        }
    }

    /// The text that these make, one after another.
    pub fn joined(&mut self, texts: &[&str]) -> String {
        let mut joined = Answer::new(self.alloc);
        joined.put_all(texts);
        self.taken(joined)
    }

    /// Adds a value as `{}` writes it.
    pub fn show<T: Display>(&mut self, value: &T) {
        let is_written = write!(self.text, "{value}").is_ok();
        self.check(is_written);
    }

    /// Adds a value as `{:?}` writes it.
    pub fn debug<T: Debug>(&mut self, value: &T) {
        let is_written = write!(self.text, "{value:?}").is_ok();
        self.check(is_written);
    }

    /// Adds the text that bytes are, with a mark in place of what is no UTF-8.
    pub fn put_lossy(&mut self, bytes: &[u8]) {
        match String::from_utf8_lossy(self.alloc, bytes) {
            Ok(text) => self.put(text.as_str()),
            Err(_) => self.run_out(),
        }
    }

    /// Takes what a call made, and keeps the fault where memory ran out.
    pub fn made<T: Drop>(&mut self, made: Result<T, Memory>) -> Option<T> {
        match made {
            Ok(value) => Some(value),
            Err(Memory) => {
                self.run_out();
                None
            }
        }
    }

    /// Keeps the fault where a call that makes nothing ran out of memory.
    pub fn done(&mut self, done: Result<(), Memory>) {
        self.check(done.is_ok());
    }

    /// Adds a text that a call made.
    pub fn put_made(&mut self, made: Result<Text, Memory>) {
        match made {
            Ok(text) => self.put(text.as_str()),
            Err(Memory) => self.run_out(),
        }
    }
}
