// The bytes of a record that is made.
ghost use Rattle.std.specs.Prelude.{◌≡◌, ◌≤◌, ◌++◌, ◌∷◌, [], length, string_bytes};
ghost use Rattle.detect_record.specs.RecordText.{IsPutBehind};

use crate::outcome::RecordFault;
use cnb_world::Bytes;
use std::alloc::Global;
use std::marker::Model;

const MAX_RECORD: usize = 16_777_216;

/// The bytes that were written, of which there are at most 16,777,216. Contracts see them.
#[derive(Drop)]
pub(crate) struct RecordText {
    bytes: Vec<u8>,
}

impl Model for RecordText {
    ghost use Rattle.std.specs.Prelude.{List, ℕ, ◌≤◌, length};

    ghost Value = { List ℕ };

    ghost view = { λ a. a.bytes.items };

    ghost invariant = { λ a. length a.bytes.items ≤ 16777216 };
}

impl RecordText {
    pub(crate) fn new(alloc: Global) -> RecordText
        ensures { result ≡ [] }
    {
        RecordText {
            bytes: Vec::new(alloc),
        }
    }

    pub(crate) fn into_bytes(self) -> Bytes
        ensures bytes { result ≡ self }
        ensures within { length self ≤ 16777216 }
    {
        let RecordText { bytes } = self;
        Bytes::from_vec(bytes)
    }

    fn push(&mut self, text: &[u8]) -> Result<(), RecordFault>
        ensures { IsPutBehind self.old text.now self.new result }
    {
        if text.len() > MAX_RECORD - self.bytes.len() {
            return Err(RecordFault::Large);
        }
        match self.bytes.extend_from_slice(text) {
            Ok(()) => Ok(()),
            Err(_) => Err(RecordFault::Memory),
        }
    }

    /// Writes a line and its line feed.
    pub(crate) fn push_line(&mut self, mut line: String) -> Result<(), RecordFault>
        ensures { IsPutBehind self.old (string_bytes line ++ 10 ∷ []) self.new result }
    {
        match line.push_str("\n") {
            Ok(()) => self.push(line.as_bytes()),
            Err(_) => Err(RecordFault::Memory),
        }
    }
}
