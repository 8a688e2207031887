// Running detect children as programs of the system.
ghost use Rattle.std.specs.Prelude.{◌≤◌, IfOk, length};

use crate::command::{detect_command, start_command};
use crate::fault::HostFault;
use crate::plans::{PlanFolder, read_plan};
use crate::program::why_unstarted;
use cnb_world::{DetectJob, Probed};
use std::fs::OpenOptions;
use std::os::unix::fs::FileExt;
use std::process::{Command, Processes, Stdio};
use std::rt::Files;

/// What detect children need one after another: the folder of their plan files, and the empty file that they have as
/// standard input, which is opened for the first of them and stays open.
#[derive(Drop)]
pub struct Prober {
    folder: PlanFolder,
    input: Option<Stdio>,
}

impl Prober {
    pub fn new() -> Prober {
        Prober {
            folder: PlanFolder::none(),
            input: None,
        }
    }

    /// Makes the child's plan file, runs the child, and reads what it left there.
    pub fn probe<R: Files + Processes + AllocGlobal>(
        &mut self,
        rt: &R,
        job: &DetectJob,
    ) -> Result<Probed, HostFault>
    where
        R::File: FileExt + Into<Stdio>,
        ensures bound { IfOk result (λ probed. length probed.plan ≤ 1048577) }
    {
        self.folder.make_plan(rt, rt.alloc(), &job.plan)?;
        let code = self.run_child(rt, job)?;
        let plan = read_plan(rt, rt.alloc(), &job.plan)?;
        Ok(Probed { code, plan })
    }

    // Runs the child and waits for it. A child that a signal ended has no code.
    fn run_child<R: Files + Processes + AllocGlobal>(
        &mut self,
        rt: &R,
        job: &DetectJob,
    ) -> Result<Option<i32>, HostFault>
    where
        R::File: FileExt + Into<Stdio>,
    {
        let input = match self.input.take() {
            Some(input) => input,
            None => empty_input(rt)?,
        };
        let code = end_code(rt, &input, job);
        self.input = Some(input);
        code
    }
}

// What a child without standard input reads.
fn empty_input<R: Files>(rt: &R) -> Result<Stdio, HostFault>
where
    R::File: Into<Stdio>,
{
    let mut options = OpenOptions::new();
    options.read(true);
    Ok(options.open(rt, "/dev/null")?.into())
}

fn end_code<R: Files + Processes + AllocGlobal>(
    rt: &R,
    input: &Stdio,
    job: &DetectJob,
) -> Result<Option<i32>, HostFault>
where
    R::File: FileExt,
{
    let command = detect_command(rt.alloc(), job)?;
    match code_of(rt, &command, input) {
        Ok(code) => Ok(code),
        Err(fault) => Err(why_unstarted(rt, job.program.as_str(), job.dir.as_str(), fault)),
    }
}

fn code_of<R: Processes>(
    rt: &R,
    command: &Command,
    input: &Stdio,
) -> Result<Option<i32>, HostFault> {
    let mut child = start_command(rt, command, input)?;
    Ok(child.wait()?.code())
}
