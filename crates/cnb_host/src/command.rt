// The commands of children.
ghost use Rattle.std.specs.Prelude.{◌≡◌, ◌∷◌, [], ℕ, List as Seq, IfOk, OnOk, Some, true, option_map, if◌then◌else◌};
ghost use Rattle.std.specs.Str.{bytes_eq};
ghost use Rattle.std.specs.Process.{command_arg0, command_program, command_args, command_var, command_dir};
ghost use Rattle.std.specs.Process.{clears_env};
ghost use Rattle.std.specs.Process.{SameProgramAndArgs, SameEnv, SameDir};
ghost use Rattle.cnb_world.specs.Env.{value_of};

use crate::fault::HostFault;
use cnb_world::{ChildJob, DetectJob, Env, Path, Text};
use std::alloc::{AllocError, Global};
use std::os::unix::process::CommandExt;
use std::process::{Child, Command, Processes, Stdio};

/// The command of a job: its program with the platform folder and the plan file as arguments, in its folder, with
/// exactly its environment (buildpack.md, "Detection"). Its standard input is for the caller to give, and it inherits
/// the two outputs.
pub fn detect_command(alloc: Global, job: &DetectJob) -> Result<Command, AllocError>
    ensures program { IfOk result (λ command. command_program command ≡ job.now.program) }
    ensures args { IfOk result (λ command. command_args command ≡ job.now.platform ∷ job.now.plan ∷ []) }
    ensures dir { IfOk result (λ command. command_dir command ≡ Some job.now.dir) }
    ensures clears { IfOk result (λ command. clears_env command ≡ true) }
    ensures vars { IfOk result (λ command. (name : Seq ℕ)
        → command_var command name ≡ option_map Some (value_of job.now.env name)) }
{
    let mut command = Command::new(alloc, job.program.as_str())?;
    set_detect(&mut command, job)?;
    Ok(command)
}

fn set_detect(command: &mut Command, job: &DetectJob) -> Result<(), AllocError>
    requires { command_args command.old ≡ [] }
    ensures program { OnOk result (command_program command.new ≡ command_program command.old) }
    ensures args { OnOk result (command_args command.new ≡ job.now.platform ∷ job.now.plan ∷ []) }
    ensures dir { OnOk result (command_dir command.new ≡ Some job.now.dir) }
    ensures clears { OnOk result (clears_env command.new ≡ true) }
    ensures vars { OnOk result ((name : Seq ℕ)
        → command_var command.new name ≡ option_map Some (value_of job.now.env name)) }
{
    command.arg(job.platform.as_str())?;
    command.arg(job.plan.as_str())?;
    set_surroundings(command, &job.dir, &job.env)
}

/// The command of a job: its program with its arguments, in its folder, with exactly its environment. It inherits
/// standard input and the two outputs.
pub fn child_command(alloc: Global, job: &ChildJob) -> Result<Command, AllocError>
    ensures program { IfOk result (λ command. command_program command ≡ job.now.program) }
    ensures args { IfOk result (λ command. command_args command ≡ job.now.args) }
    ensures dir { IfOk result (λ command. command_dir command ≡ Some job.now.dir) }
    ensures clears { IfOk result (λ command. clears_env command ≡ true) }
    ensures vars { IfOk result (λ command. (name : Seq ℕ)
        → command_var command name ≡ option_map Some (value_of job.now.env name)) }
{
    let mut command = Command::new(alloc, job.program.as_str())?;
    set_child(&mut command, job)?;
    Ok(command)
}

/// Does the same for a program at another path, which is started under the job's own name of it.
pub fn child_command_at(alloc: Global, job: &ChildJob, path: &str) -> Result<Command, AllocError>
    ensures program { IfOk result (λ command. command_program command ≡ path.now) }
    ensures name { IfOk result (λ command. command_arg0 command ≡ Some job.now.program) }
    ensures args { IfOk result (λ command. command_args command ≡ job.now.args) }
    ensures dir { IfOk result (λ command. command_dir command ≡ Some job.now.dir) }
    ensures clears { IfOk result (λ command. clears_env command ≡ true) }
    ensures vars { IfOk result (λ command. (name : Seq ℕ)
        → command_var command name ≡ option_map Some (value_of job.now.env name)) }
{
    let mut command = Command::new(alloc, path)?;
    set_child(&mut command, job)?;
    command.arg0(job.program.as_str())?;
    Ok(command)
}

fn set_child(command: &mut Command, job: &ChildJob) -> Result<(), AllocError>
    requires { command_args command.old ≡ [] }
    ensures program { OnOk result (command_program command.new ≡ command_program command.old) }
    ensures args { OnOk result (command_args command.new ≡ job.now.args) }
    ensures dir { OnOk result (command_dir command.new ≡ Some job.now.dir) }
    ensures clears { OnOk result (clears_env command.new ≡ true) }
    ensures vars { OnOk result ((name : Seq ℕ)
        → command_var command.new name ≡ option_map Some (value_of job.now.env name)) }
{
    add_arguments(command, job.args.as_slice())?;
    set_surroundings(command, &job.dir, &job.env)
}

pub(crate) fn add_arguments(command: &mut Command, args: &[Text]) -> Result<(), AllocError>
    requires { command_args command.old ≡ [] }
    ensures args { OnOk result (command_args command.new ≡ args.now) }
    ensures program { OnOk result (command_program command.new ≡ command_program command.old) }
    ensures env { OnOk result (SameEnv command.old command.new) }
{
    for arg in args {
        command.arg(arg.as_str())?;
    }
    Ok(())
}

// Sets the folder, and exactly this environment.
fn set_surroundings(command: &mut Command, dir: &Path, env: &Env) -> Result<(), AllocError>
    ensures call { OnOk result (SameProgramAndArgs command.old command.new) }
    ensures dir { OnOk result (command_dir command.new ≡ Some dir.now) }
    ensures clears { OnOk result (clears_env command.new ≡ true) }
    ensures vars { OnOk result ((name : Seq ℕ)
        → command_var command.new name ≡ option_map Some (value_of env.now name)) }
{
    command.current_dir(dir.as_str())?;
    command.env_clear();
    set_variables(command, env)
}

// From the last variable to the first.
fn set_variables(command: &mut Command, env: &Env) -> Result<(), AllocError>
    requires { (name : Seq ℕ) → command_var command.old name ≡ None }
    ensures vars { OnOk result ((name : Seq ℕ)
        → command_var command.new name ≡ option_map Some (value_of env.now name)) }
    ensures call { OnOk result (SameProgramAndArgs command.old command.new) }
    ensures dir { OnOk result (SameDir command.old command.new) }
    ensures clears { OnOk result (clears_env command.new ≡ clears_env command.old) }
{
    for place in (0..env.len()).rev() {
        set_variable(command, env.name(place).as_str(), env.value(place).as_str())?;
    }
    Ok(())
}

fn set_variable(command: &mut Command, name: &str, value: &str) -> Result<(), AllocError>
    ensures vars { OnOk result ((other : Seq ℕ)
        → command_var command.new other
        ≡ (if bytes_eq name.now other then Some (Some value.now) else command_var command.old other)) }
    ensures call { OnOk result (SameProgramAndArgs command.old command.new) }
    ensures dir { OnOk result (SameDir command.old command.new) }
    ensures clears { OnOk result (clears_env command.new ≡ clears_env command.old) }
{
    command.env(name, value)?;
    Ok(())
}

/// Starts a program with this standard input and the outputs of this process.
pub fn start_command<R: Processes>(
    rt: &R,
    command: &Command,
    input: &Stdio,
) -> Result<Child<R::Started>, HostFault> {
    let output = Stdio::inherit();
    start_with(rt, command, input, &output)
}

fn start_with<R: Processes>(
    rt: &R,
    command: &Command,
    input: &Stdio,
    output: &Stdio,
) -> Result<Child<R::Started>, HostFault> {
    Ok(rt.spawn(command, input, output, output)?)
}
