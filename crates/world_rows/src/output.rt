// Outputs.
use crate::fault::LineFault;
use crate::texts::{add_line, given, numbers, shown};
use cnb_host::StdoutSink;
use cnb_world::{MemSink, Sink};
use row_files::{Row, RowFault};
use std::alloc::Global;
use std::fmt::Display;
use std::io;
use std::io::ErrorKind;

/// An output that takes at most so many bytes at once, or is closed.
#[derive(Drop)]
struct Narrow {
    room: Option<usize>,
}

impl Print for Narrow {
    fn print<D: Display + Drop>(&self, value: D) -> io::Result<()> {
        let _ = value;
        Ok(())
    }

    fn println<D: Display + Drop>(&self, value: D) -> io::Result<()> {
        let _ = value;
        Ok(())
    }

    fn write_all(&self, _bytes: &[u8]) -> io::Result<()> {
        Ok(())
    }

    fn write_some(&self, bytes: &[u8]) -> io::Result<usize> {
        match self.room {
            Some(room) => Ok(room.min(bytes.len())),
            None => Err(io::Error::from(ErrorKind::BrokenPipe)),
        }
    }
}

/// Writes each given line to an output, and tells how many bytes of it were taken.
pub(crate) fn written(rt: &HostRuntime, row: &Row) -> Result<String, LineFault> {
    let alloc = rt.alloc();
    let pieces = row.text(alloc, "pieces")?;
    match row.text(alloc, "output")? {
        "memory" => in_memory(alloc, row, pieces),
        "standard output" => Ok(taken(alloc, &mut StdoutSink::new(*rt), pieces)?),
        room => {
            let room = room.parse().ok();
            Ok(taken(alloc, &mut StdoutSink::new(Narrow { room }), pieces)?)
        }
    }
}

fn in_memory(alloc: Global, row: &Row, pieces: &str) -> Result<String, LineFault> {
    let mut sink = MemSink::new(alloc, numbers(alloc, row, "failing")?)?;
    taken_in_memory(alloc, &mut sink, pieces)
}

fn taken_in_memory(alloc: Global, sink: &mut MemSink, pieces: &str) -> Result<String, LineFault> {
    let mut told = taken(alloc, sink, pieces)?;
    let took = shown(alloc, sink.as_slice())?;
    writeln!(told, "took {took}")?;
    Ok(told)
}

fn taken<S: Sink>(alloc: Global, sink: &mut S, pieces: &str) -> Result<String, RowFault> {
    let mut told = String::new(alloc);
    for piece in pieces.lines() {
        add_line(&mut told, write(alloc, sink, piece))?;
    }
    Ok(told)
}

fn write<S: Sink>(alloc: Global, sink: &mut S, piece: &str) -> Result<String, LineFault> {
    let count = sink.write(piece.as_bytes())?;
    Ok(format!(in alloc; "{count}")?)
}
