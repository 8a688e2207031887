// The programs in `exec.d`.
ghost use Rattle.std.specs.Prelude.{◌≡◌, IfErr, IfOk};
ghost use Rattle.steps.specs.Causes.{IsAnswer, IsGivenCause};
ghost use Rattle.steps.specs.Outside.{seen};
ghost use Rattle.steps.specs.Steps.{runs_child};
ghost use Rattle.cnb_launch.specs.Exec.{after_exec, exec_job, or_bad, runs_all, runs_exec, runs_execs};
ghost use Rattle.cnb_launch.specs.Faults.{cause_of};

use crate::fault::LaunchFault;
use crate::output::with_output;
use cnb_world::{ChildJob, End, Env, List, Memory, Path, Text, World};
use std::alloc::Global;

fn exec_job(alloc: Global, dir: &Path, path: &Path, env: &Env) -> Result<ChildJob, Memory>
    ensures { IfOk result (λ job. job ≡ exec_job dir.now path.now env.now) }
{
    Ok(ChildJob {
        program: Text::of(alloc, path.as_str())?,
        args: List::new(alloc),
        env: env.copy()?,
        dir: dir.copy(alloc)?,
        side: true,
    })
}

/// Runs a child to its end.
#[tactic(auto, unfolding(steps::specs::Steps::runs_child), using(crate::proofs::ExecLemmas::child_counted))]
pub(crate) fn run_child<W: World>(world: &mut W, job: &ChildJob) -> Result<End, LaunchFault>
    ensures step { runs_child cause_of job.now (seen W.World world.old) result (seen W.World world.new) }
{
    Ok(world.run(job)?)
}

fn or_bad(alloc: Global, path: &Path, made: Option<Env>) -> Result<Env, LaunchFault>
    ensures answer { IsAnswer cause_of result (or_bad path.now made) }
    ensures given { IfErr result (λ fault. IsGivenCause (cause_of fault)) }
{
    match made {
        Some(env) => Ok(env),
        None => Err(LaunchFault::BadExecOutput(path.copy(alloc)?)),
    }
}

// The environment behind a program that ended so.
fn after_exec(alloc: Global, path: &Path, env: Env, end: &End) -> Result<Env, LaunchFault>
    ensures answer { IsAnswer cause_of result (after_exec path.now env end.now) }
    ensures given { IfErr result (λ fault. IsGivenCause (cause_of fault)) }
{
    match end.code {
        Some(0) => {
            let made = with_output(alloc, env, end.side.as_slice())?;
            Ok(or_bad(alloc, path, made)?)
        }
        code => Err(LaunchFault::ExecFailed {
            path: path.copy(alloc)?,
            code,
        }),
    }
}

fn run_exec<W: World>(
    alloc: Global,
    world: &mut W,
    dir: &Path,
    path: &Path,
    env: Env,
) -> Result<Env, LaunchFault>
    ensures step { runs_exec dir.now path.now env (seen W.World world.old) result (seen W.World world.new) }
{
    let job = exec_job(alloc, dir, path, &env)?;
    let end = run_child(world, &job)?;
    after_exec(alloc, path, env, &end)
}

// The programs of one folder, one after another.
fn run_execs<W: World>(
    alloc: Global,
    world: &mut W,
    dir: &Path,
    paths: &[Path],
    env: Env,
) -> Result<Env, LaunchFault>
    ensures step { runs_execs dir.now paths.now env (seen W.World world.old) result (seen W.World world.new) }
{
    let mut env = env;
    for path in paths {
        env = run_exec(alloc, world, dir, path, env)?;
    }
    Ok(env)
}

/// Runs programs one after another, each with what those before it put out (buildpack.md, "exec.d").
pub(crate) fn run_all<W: World>(
    alloc: Global,
    world: &mut W,
    dir: &Path,
    lists: &[List<Path>],
    env: Env,
) -> Result<Env, LaunchFault>
    ensures step { runs_all dir.now lists.now env (seen W.World world.old) result (seen W.World world.new) }
{
    let mut env = env;
    for paths in lists {
        env = run_execs(alloc, world, dir, paths.as_slice(), env)?;
    }
    Ok(env)
}
