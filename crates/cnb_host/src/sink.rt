// Standard output.
ghost use Rattle.std.specs.Prelude.{◌≡◌, ◌≤◌, ◌<◌, IfSome, None, length};

use cnb_world::{Sink, SinkFault};
use std::marker::Model;

/// Standard output, which contracts see as the count of the writes that failed. Each write goes to the system at once.
#[derive(Drop)]
pub struct StdoutSink<R: Print + Drop> {
    rt: R,
    faults: u64,
}

impl<R: Print + Drop> Model for StdoutSink<R> {
    ghost use Rattle.std.specs.Prelude.{ℕ};

    ghost Value = { ℕ };

    ghost view = { λ sink. sink.faults };
}

impl<R: Print + Drop> StdoutSink<R> {
    pub fn new(rt: R) -> StdoutSink<R>
        ensures { result ≡ 0 }
    {
        StdoutSink { rt, faults: 0 }
    }
}

impl<R: Print + Drop> Sink for StdoutSink<R> {
    ghost taken = { λ _. None };

    ghost faults = { λ count. count };

    fn write(&mut self, piece: &[u8]) -> Result<usize, SinkFault> {
        match written(&self.rt, piece) {
            Some(count) => Ok(count),
            None => {
                self.faults = self.faults.saturating_add(1);
                Err(SinkFault::Failed)
            }
        }
    }
}

// How many bytes were written: of a piece that isn't empty, some.
fn written(rt: &impl Print, piece: &[u8]) -> Option<usize>
    ensures within { IfSome result (λ count. count ≤ length piece.now) }
    ensures moves { IfSome result (λ count. 0 < length piece.now → 0 < count) }
{
    match rt.write_some(piece) {
        Ok(0) if !piece.is_empty() => None,
        Ok(count) => Some(count),
        Err(_) => None,
    }
}
