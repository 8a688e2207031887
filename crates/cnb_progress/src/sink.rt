// A sink that keeps a refusal.
ghost use Rattle.std.specs.Prelude.{◌≡◌};

use cnb_world::{Sink, SinkFault};
use std::alloc::Global;
use std::str;

/// How much of the text is kept.
const MOST_KEPT: usize = 65_536;

/// A sink that keeps the front of the text that was written, in which a refusal stands alone. Each write is that of the sink
/// within.
#[derive(Drop)]
pub struct ProgressSink<K: Sink + Drop> {
    sink: K,
    kept: Vec<u8>,
}

impl<K: Sink + Drop> ProgressSink<K> {
    pub fn new(alloc: Global, sink: K) -> ProgressSink<K> {
        ProgressSink {
            sink,
            kept: Vec::new(alloc),
        }
    }

    /// The line of the refusal that was written, or nothing where none was.
    pub fn refusal(&self) -> &str {
        let text = str::from_utf8(self.kept.as_slice()).unwrap_or("");
        match text.strip_suffix('\n') {
            Some(line) if line.starts_with("error ") => line,
            _ => "",
        }
    }

    fn keep(&mut self, piece: &[u8])
        ensures { self.new.sink ≡ self.old.sink }
    {
        let room = MOST_KEPT.saturating_sub(self.kept.len());
        let _ = self
            .kept
            .extend_from_slice(piece.get(..room).unwrap_or(piece));
    }
}

impl<K: Sink + Drop> Sink for ProgressSink<K> {
    ghost taken = { λ progress. K.taken progress.sink };

    ghost faults = { λ progress. K.faults progress.sink };

    fn write(&mut self, piece: &[u8]) -> Result<usize, SinkFault> {
        let count = self.sink.write(piece)?;
        self.keep(piece.get(..count).unwrap_or(piece));
        Ok(count)
    }
}
