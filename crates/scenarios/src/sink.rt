// An output that takes a text in small pieces.
ghost use Rattle.std.specs.Prelude.{◌≡◌, length, min, take};

use cnb_world::{List, MemSink, Memory, Sink, SinkFault};
use std::alloc::Global;

/// The most bytes that a write takes.
const PIECE: usize = 16;

/// An output in memory of which each write takes 16 bytes at most, so that a text can be cut inside a line.
#[derive(Drop)]
pub struct PieceSink {
    whole: MemSink,
}

impl PieceSink {
    pub(crate) fn new(alloc: Global, failing: List<u64>) -> Result<PieceSink, Memory> {
        let whole = MemSink::new(alloc, failing)?;
        Ok(PieceSink { whole })
    }

    /// What was taken.
    pub(crate) fn as_slice(&self) -> &[u8] {
        self.whole.as_slice()
    }
}

fn first_piece(text: &[u8]) -> &[u8]
    ensures { result.now ≡ take (min PIECE (length text.now)) text.now }
{
    &text[..text.len().min(PIECE)]
}

impl Sink for PieceSink {
    ghost taken = { λ s. ⟦<MemSink as Sink>⟧.taken s.whole };

    ghost faults = { λ s. ⟦<MemSink as Sink>⟧.faults s.whole };

    fn write(&mut self, piece: &[u8]) -> Result<usize, SinkFault> {
        self.whole.write(first_piece(piece))
    }
}
