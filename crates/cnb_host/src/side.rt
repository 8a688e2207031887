// Children whose descriptor 3 is kept.
//
// std gives a child its standard input and its two outputs alone. So a shell stands between: it has the writing end of
// a pipe as its standard input, makes that its descriptor 3, and runs the program in its place (shell.rt).
//
// A program that can't be started must be told from one that ends with 126 or 127. So it is looked at before, here and
// by the shell, which writes a byte before it runs anything. Not told apart is a program for the machine whose own
// loader is missing.
ghost use Rattle.std.specs.Prelude.{◌≡◌, ◌≤◌, ◌-◌, ◌++◌, ◌∷◌, [], IfOk, OnOk, OnErr, Some, codes, length, map, take};
ghost use Rattle.std.specs.Prelude.{true, vec_len};
ghost use Rattle.std.specs.Process.{clears_env, command_args, command_dir, command_program};
ghost use Rattle.cnb_host.specs.Side.{side_words};

use crate::cause::Cause;
use crate::command::{add_arguments, start_command};
use crate::fault::HostFault;
use crate::program::check_program;
use crate::shell::{BY_ENV, PLAIN, side_words};
use cnb_world::{Bytes, ChildJob, End, LONGEST_DOCUMENT};
use std::alloc::{AllocError, Global};
use std::io::{self, ErrorKind, PipeReader, PipeWriter, Read};
use std::os::unix::fs::FileExt;
use std::process::{Child, Command, ExitStatus, Processes, Stdio};
use std::rt::Files;

/// Where the shell finds `env` and `nice`.
const TOOLS: &str = "/usr/local/sbin:/usr/local/bin:/usr/sbin:/usr/bin:/sbin:/bin";

/// The most that is kept: one byte more than an output may have.
const SIDE_MAX: usize = LONGEST_DOCUMENT + 1;

// The command of a job, behind a shell that makes its standard input descriptor 3. It inherits the two outputs, and the
// program has no standard input.
fn side_command(alloc: Global, job: &ChildJob) -> Result<Command, HostFault>
    ensures program { IfOk result (λ command. command_program command ≡ codes "/bin/sh") }
    ensures args { IfOk result (λ command. command_args command ≡ side_words PLAIN.now BY_ENV.now job.now) }
    ensures dir { IfOk result (λ command. command_dir command ≡ Some job.now.dir) }
    ensures clears { IfOk result (λ command. clears_env command ≡ true) }
{
    let mut command = Command::new(alloc, "/bin/sh")?;
    set_shell(alloc, &mut command, job)?;
    Ok(command)
}

fn set_shell(alloc: Global, command: &mut Command, job: &ChildJob) -> Result<(), HostFault>
    requires { command_args command.old ≡ [] }
    ensures program { OnOk result (command_program command.new ≡ command_program command.old) }
    ensures args { OnOk result (command_args command.new ≡ side_words PLAIN.now BY_ENV.now job.now) }
    ensures dir { OnOk result (command_dir command.new ≡ Some job.now.dir) }
    ensures clears { OnOk result (clears_env command.new ≡ true) }
{
    add_words(alloc, command, job)?;
    command.current_dir(job.dir.as_str())?;
    command.env_clear();
    command.env("PATH", TOOLS)?;
    Ok(())
}

fn add_words(alloc: Global, command: &mut Command, job: &ChildJob) -> Result<(), HostFault>
    requires { command_args command.old ≡ [] }
    ensures args { OnOk result (command_args command.new ≡ side_words PLAIN.now BY_ENV.now job.now) }
    ensures program { OnOk result (command_program command.new ≡ command_program command.old) }
{
    let words = side_words(alloc, job)?;
    Ok(add_arguments(command, words.as_slice())?)
}

fn start<R: Files + Processes + AllocGlobal>(
    rt: &R,
    job: &ChildJob,
    side: PipeWriter,
) -> Result<Child<R::Started>, HostFault> {
    let command = side_command(rt.alloc(), job)?;
    let input = Stdio::from(side);
    start_command(rt, &command, &input)
}

// Bytes behind those that are kept, up to the most and the byte of the shell.
fn keep(kept: &mut Vec<u8>, bytes: &[u8]) -> Result<(), AllocError>
    requires { vec_len kept.old ≤ 1048578 }
    ensures ok { OnOk result (kept.new.items ≡ kept.old.items ++ take (1048578 - vec_len kept.old) bytes.now) }
    ensures bound { OnOk result (vec_len kept.new ≤ 1048578) }
{
    let room = SIDE_MAX + 1 - kept.len();
    let taken = room.min(bytes.len());
    kept.extend_from_slice(&bytes[..taken])
}

// What comes out of a pipe until all its writers are gone.
fn read_side(alloc: Global, mut side: PipeReader) -> Result<Vec<u8>, HostFault>
    ensures { IfOk result (λ kept. vec_len kept ≤ 1048578) }
{
    let mut kept = Vec::new(alloc);
    read_all(&mut side, &mut kept)?;
    Ok(kept)
}

fn read_all(side: &mut PipeReader, kept: &mut Vec<u8>) -> Result<(), HostFault>
    requires { vec_len kept.old ≤ 1048578 }
    ensures { OnOk result (vec_len kept.new ≤ 1048578) }
{
    let mut piece = [0u8; 4096];
    for _ in 0..u64::MAX {
        match side.read(&mut piece) {
            Ok(0) => break,
            Ok(count) => keep(kept, &piece[..count])?,
            Err(error) if error.kind() == ErrorKind::Interrupted => {}
            Err(error) => return Err(HostFault::from(error)),
        }
    }
    Ok(())
}

// What is kept behind the byte that the shell writes before it runs the program.
fn behind_mark(alloc: Global, kept: &[u8]) -> Result<Bytes, HostFault>
    requires { length kept.now ≤ 1048578 }
    ensures bytes { IfOk result (λ bytes. kept.now ≡ 46 ∷ bytes) }
    ensures bound { IfOk result (λ bytes. length bytes ≤ 1048577) }
{
    match kept {
        [b'.', side @ ..] => Ok(Bytes::of(alloc, side)?),
        _ => Err(HostFault::Failed(Cause::NotStarted)),
    }
}

/// Runs the child and keeps what it writes on descriptor 3. A child that a signal ended has no code.
pub fn run_side<R: Files + Processes + AllocGlobal>(
    rt: &R,
    job: &ChildJob,
) -> Result<End, HostFault>
where
    R::File: FileExt,
    ensures { IfOk result (λ end. length end.side ≤ 1048577) }
{
    check_program(rt, job.program.as_str())?;
    let (reader, writer) = io::pipe(rt)?;
    let child = start(rt, job, writer)?;
    wait_for(rt, child, reader)
}

fn wait_for<R: Processes + AllocGlobal>(
    rt: &R,
    mut child: Child<R::Started>,
    side: PipeReader,
) -> Result<End, HostFault>
    ensures { IfOk result (λ end. length end.side ≤ 1048577) }
{
    let kept = read_side(rt.alloc(), side);
    let status = child.wait();
    ended(rt.alloc(), status, kept)
}

fn ended(
    alloc: Global,
    status: io::Result<ExitStatus>,
    kept: Result<Vec<u8>, HostFault>,
) -> Result<End, HostFault>
    requires { IfOk kept (λ kept. vec_len kept ≤ 1048578) }
    ensures { IfOk result (λ end. length end.side ≤ 1048577) }
{
    let status = status?;
    end_of(alloc, status, kept?.as_slice())
}

// The end of a child, by its status and what was kept of what it wrote.
fn end_of(alloc: Global, status: ExitStatus, kept: &[u8]) -> Result<End, HostFault>
    requires { length kept.now ≤ 1048578 }
    ensures { IfOk result (λ end. length end.side ≤ 1048577) }
{
    let side = behind_mark(alloc, kept)?;
    Ok(End {
        code: status.code(),
        side,
    })
}
