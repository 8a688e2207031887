// What is run, and in which environment.
ghost use Rattle.std.specs.Prelude.{◌≡◌, ◌≤◌, ℕ, List as Seq, IfOk, IsTrue, length};
ghost use Rattle.std.specs.List.{All, list_all};
ghost use Rattle.cnb_toml.specs.Process.{is_process};
ghost use Rattle.steps.specs.Keeping.{Keeps};
ghost use Rattle.steps.specs.Outside.{seen};
ghost use Rattle.cnb_launch.specs.Folders.{AreWithin};
ghost use Rattle.cnb_launch.specs.Places.{IsShortDir};
ghost use Rattle.cnb_launch.specs.Planning.{args_of, launch_job, launches, plans, prepared_of, prepares};
ghost use Rattle.cnb_launch.specs.Planning.{prepares_in, prepares_of, program_of};

use crate::choosing::{ChosenProcess, choose, copy_words};
use crate::documents::read_launch;
use crate::exec::{run_all, run_child};
use crate::fault::LaunchFault;
use crate::places::dir_in;
use crate::sets::{execs_in, sets_in};
use cnb_env::{LayerSet, launch_env};
use cnb_words::Call;
use cnb_world::{ChildJob, End, Env, List, Memory, Path, Text, World};
use image_docs::LaunchDoc;
use std::alloc::Global;

/// What is run: the command line, whose first word is the program, the whole environment and the working folder.
#[derive(Drop)]
pub struct LaunchPlan {
    pub command: List<Text>,
    pub env: Env,
    pub dir: Path,
}

/// What is known before the first program in `exec.d` runs: the plan with the environment so far, the folder in which
/// the programs run, and their paths, folder by folder.
#[derive(Drop)]
struct Prepared {
    command: List<Text>,
    dir: Path,
    workspace: Path,
    env: Env,
    execs: List<List<Path>>,
}

fn prepared_of(
    alloc: Global,
    root: &Path,
    chosen: ChosenProcess,
    env: Env,
    execs: List<List<Path>>,
) -> Result<Prepared, Memory>
    requires root { length root.now ≤ 4096 }
    requires dir { IsShortDir chosen.dir }
    ensures { IfOk result (λ prepared. prepared ≡ prepared_of root.now chosen env execs) }
{
    let dir = dir_in(alloc, root, &chosen.dir)?;
    let workspace = dir_in(alloc, root, &None)?;
    Ok(Prepared {
        command: chosen.command,
        dir,
        workspace,
        env,
        execs,
    })
}

// Reads the files of the layers, for a process that is chosen.
fn prepare_in<W: World>(
    alloc: Global,
    world: &mut W,
    root: &Path,
    env: &Env,
    chosen: ChosenProcess,
    sets: &List<LayerSet>,
) -> Result<Prepared, LaunchFault>
    requires root { length root.now ≤ 4096 }
    requires dir { IsShortDir chosen.dir }
    requires short { All (AreWithin 4615) sets.now }
    ensures step { prepares_in root.now env.now chosen sets.now
        (seen W.World world.old) result (seen W.World world.new) }
{
    let start = launch_env(alloc, world, env, sets, chosen.kind.as_ref())?;
    let execs = execs_in(alloc, world, sets, &chosen.kind)?;
    Ok(prepared_of(alloc, root, chosen, start, execs)?)
}

// Chooses the process of a document, and reads what is run with it.
fn prepare_of<W: World>(
    alloc: Global,
    world: &mut W,
    root: &Path,
    call: &Call,
    env: &Env,
    doc: &LaunchDoc,
) -> Result<Prepared, LaunchFault>
    requires root { length root.now ≤ 4096 }
    requires sound { IsTrue (list_all is_process doc.now.processes) }
    ensures step { prepares_of root.now call.now env.now doc.now
        (seen W.World world.old) result (seen W.World world.new) }
{
    let chosen = choose(alloc, doc, call)?;
    let sets = sets_in(alloc, world, root, doc)?;
    prepare_in(alloc, world, root, env, chosen, &sets)
}

// Reads all that says what is run, before anything runs.
fn prepare<W: World>(
    alloc: Global,
    world: &mut W,
    root: &Path,
    call: &Call,
    env: &Env,
) -> Result<Prepared, LaunchFault>
    requires { length root.now ≤ 4096 }
    ensures step { prepares root.now call.now env.now (seen W.World world.old) result (seen W.World world.new) }
{
    let doc = read_launch(alloc, world, root)?;
    prepare_of(alloc, world, root, call, env, &doc)
}

/// What a call runs of the image under a root: the files say it, and the programs in `exec.d`, which this runs
/// (platform.md, "launcher"; buildpack.md, "exec.d").
pub fn plan_launch<W: World>(
    alloc: Global,
    world: &mut W,
    root: &Path,
    call: &Call,
    env: &Env,
) -> Result<LaunchPlan, LaunchFault>
    requires { length root.now ≤ 4096 }
    ensures steps { plans root.now call.now env.now (seen W.World world.old) result (seen W.World world.new) }
    // Nothing is changed but by the children that ran.
    ensures keeps { (path : Seq ℕ) → Keeps path (seen W.World world.old) (seen W.World world.new) }
{
    let prepared = prepare(alloc, world, root, call, env)?;
    let Prepared {
        command,
        dir,
        workspace,
        env,
        execs,
    } = prepared;
    let env = run_all(alloc, world, &workspace, execs.as_slice(), env)?;
    Ok(LaunchPlan { command, env, dir })
}

fn program_of(alloc: Global, command: &[Text]) -> Result<Text, Memory>
    ensures { IfOk result (λ program. program ≡ program_of command.now) }
{
    match command {
        [program, ..] => program.copy(alloc),
        [] => Text::of(alloc, ""),
    }
}

fn args_of(alloc: Global, command: &[Text]) -> Result<List<Text>, Memory>
    ensures { IfOk result (λ args. args ≡ args_of command.now) }
{
    match command {
        [_, args @ ..] => copy_words(alloc, args),
        [] => Ok(List::new(alloc)),
    }
}

fn launch_job(alloc: Global, plan: LaunchPlan) -> Result<ChildJob, Memory>
    ensures { IfOk result (λ job. job ≡ launch_job plan) }
{
    let program = program_of(alloc, plan.command.as_slice())?;
    let args = args_of(alloc, plan.command.as_slice())?;
    Ok(ChildJob {
        program,
        args,
        env: plan.env,
        dir: plan.dir,
        side: false,
    })
}

/// Plans as `plan_launch` does, and runs the command line once.
pub fn launch<W: World>(
    alloc: Global,
    world: &mut W,
    root: &Path,
    call: &Call,
    env: &Env,
) -> Result<End, LaunchFault>
    requires { length root.now ≤ 4096 }
    ensures steps { launches root.now call.now env.now (seen W.World world.old) result (seen W.World world.new) }
    // Nothing is changed but by the children that ran.
    ensures keeps { (path : Seq ℕ) → Keeps path (seen W.World world.old) (seen W.World world.new) }
{
    let plan = plan_launch(alloc, world, root, call, env)?;
    let job = launch_job(alloc, plan)?;
    run_child(world, &job)
}
