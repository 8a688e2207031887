// Writing a command's text.
ghost use Rattle.std.specs.Prelude.{◌≡◌, ◌≤◌, OnOk, OnErr, drop, length};
ghost use Rattle.cnb_world.specs.Calls.{CountsSink};
ghost use Rattle.cnb_lifecycle.specs.Printing.{Adds, AddsPart, CountsOutput, Finishes, IsTold};

use crate::answer::Answer;
use crate::refusal::Refusal;
use crate::report::error_line;
use crate::status::Status;
use cnb_world::{Memory, Sink, SinkFault, Text};
use std::alloc::Global;
use std::mem::drop;

fn behind(text: &[u8], done: usize) -> &[u8]
    requires { done ≤ length text.now }
    ensures { result.now ≡ drop done text.now }
{
    &text[done..]
}

// Writes all of a text.
fn print<O: Sink>(out: &mut O, text: &[u8]) -> Result<(), SinkFault>
    ensures ok { OnOk result (Adds (O.taken out.old) (O.taken out.new) text.now) }
    ensures err { OnErr result (AddsPart (O.taken out.old) (O.taken out.new) text.now) }
    ensures faults { CountsSink result (O.faults out.old) (O.faults out.new) }
{
    let mut done = 0usize;
    while done < text.len() {
        let rest = behind(text, done);
        done += out.write(rest)?;
    }
    Ok(())
}

fn finish_done<O: Sink>(text: &Text, out: &mut O) -> Status
    ensures finishes { Finishes (Ok (Answer.Printed text.now)) result (O.taken out.old) (O.taken out.new) }
    ensures output { CountsOutput result (O.faults out.old) (O.faults out.new) }
{
    match print(out, text.as_str().as_bytes()) {
        Ok(()) => Status::Done,
        Err(SinkFault::Failed) => Status::Output,
    }
}

#[tactic(auto, using(crate::proofs::LineLemmas::cut_line))]
fn finish_refused<O: Sink>(alloc: Global, refusal: Refusal, out: &mut O) -> Status
    requires { IsTold refusal }
    ensures finishes { Finishes (Err refusal) result (O.taken out.old) (O.taken out.new) }
    ensures output { CountsOutput result (O.faults out.old) (O.faults out.new) }
{
    let Ok(line) = error_line(alloc, &refusal) else {
        drop(refusal);
        return Status::Refused(Refusal::Memory);
    };
    match print(out, line.as_str().as_bytes()) {
        Ok(()) => Status::Refused(refusal),
        Err(SinkFault::Failed) => {
            drop(refusal);
            Status::Output
        }
    }
}

/// Writes the text of a command's end, and gives the status. Where memory ran out, or a child was launched, nothing is
/// written.
pub(crate) fn finish<O: Sink>(alloc: Global, end: Result<Answer, Refusal>, out: &mut O) -> Status
    ensures finishes { Finishes end result (O.taken out.old) (O.taken out.new) }
    ensures output { CountsOutput result (O.faults out.old) (O.faults out.new) }
{
    match end {
        Ok(Answer::Printed(text)) => finish_done(&text, out),
        Ok(Answer::Launched(code)) => Status::Launched { code },
        Err(Refusal::Memory) => Status::Refused(Refusal::Memory),
        Err(refusal) => finish_refused(alloc, refusal, out),
    }
}
