// What the process is started with, and the system that it works on.
ghost use Rattle.std.specs.Prelude.{◌≡◌, ◌<◌, ◌^◌, IfOk, length, map, string_bytes};
ghost use Rattle.cnb_start.specs.Folders.{caches_by};

use crate::folders::{Folders, GuardedFolder, folders_in};
use cnb_host::{HostSpawner, HostWorld, StartFault, StdoutSink, environment, words};
use cnb_progress::{Level, Phases, ProgressSink, ProgressSpawner, ProgressWorld};
use cnb_world::{Env, List, Memory, Path};
use std::alloc::AllocError;

/// One for each worker that the words may ask for.
const SPAWNERS: usize = 64;

/// A child of the system, told of on standard error.
pub type MainSpawner = ProgressSpawner<HostSpawner<HostRuntime>, HostRuntime>;

/// The files of the system, told of on standard error.
pub type MainWorld = ProgressWorld<HostWorld<HostRuntime>, HostRuntime>;

/// Standard output, which keeps the line of a refusal.
pub type MainSink = ProgressSink<StdoutSink<HostRuntime>>;

/// What this process was started with.
pub type MainStarted = Started<MainWorld, MainSpawner, MainSink>;

/// What the process was started with, and the system that it works on.
#[derive(Drop)]
pub struct Started<W, S, O> {
    pub words: Vec<String>,
    pub env: Env,
    pub world: W,
    pub spawners: Vec<S>,
    /// The folders of the caches that the words ask for.
    pub caches: List<Path>,
    /// Whether the command fills the caches.
    pub fills_caches: bool,
    pub out: O,
}

/// Why nothing is done. Nothing is printed then.
#[derive(Drop)]
pub enum Unstarted {
    /// A word of the process is no text.
    NotText,
    /// Memory ran out.
    Memory,
}

impl Unstarted {
    /// The exit status: that of words that are no command, or of memory that ran out.
    pub fn code(&self) -> u8
        ensures text { self.now ≡ Unstarted.NotText → result ≡ 1 }
        ensures memory { self.now ≡ Unstarted.Memory → result ≡ 3 }
    {
        match self {
            Unstarted::NotText => 1,
            Unstarted::Memory => 3,
        }
    }
}

impl From<StartFault> for Unstarted {
    fn from(fault: StartFault) -> Self {
        match fault {
            StartFault::NotText => Unstarted::NotText,
            StartFault::Memory => Unstarted::Memory,
        }
    }
}

impl From<Memory> for Unstarted {
    fn from(_: Memory) -> Self {
        Unstarted::Memory
    }
}

impl From<AllocError> for Unstarted {
    fn from(_: AllocError) -> Self {
        Unstarted::Memory
    }
}

fn make_spawners(rt: &HostRuntime, level: Level) -> Result<Vec<MainSpawner>, AllocError>
    ensures { IfOk result (λ spawners. length spawners.items ≡ 64) }
{
    let mut spawners = Vec::new(rt.alloc());
    for _ in 0..SPAWNERS {
        let spawner = HostSpawner::new(rt.clone()?);
        spawners.push(ProgressSpawner::new(spawner, rt.clone()?, level))?;
    }
    Ok(spawners)
}

// The files of the system, where one process at a time writes below these folders, and what is read below those that are
// watched stays as it is.
fn guarded_files(
    rt: &HostRuntime,
    guarded: Vec<GuardedFolder>,
    watched: List<Path>,
) -> Result<HostWorld<HostRuntime>, Unstarted> {
    let mut files = HostWorld::new(rt.clone()?);
    for GuardedFolder { folder, read } in guarded {
        files.guard(folder, read)?;
    }
    for folder in watched.into_vec() {
        files.watch(folder)?;
    }
    Ok(files)
}

fn level_in(env: &Env) -> Level {
    match env.get("CNB_LOG_LEVEL") {
        Some(name) => Level::of(Some(name.as_str())),
        None => Level::of(None),
    }
}

/// The system that the process works on.
#[derive(Drop)]
struct System {
    world: MainWorld,
    spawners: Vec<MainSpawner>,
    out: MainSink,
}

fn sink(rt: &HostRuntime) -> Result<MainSink, AllocError> {
    Ok(ProgressSink::new(rt.alloc(), StdoutSink::new(rt.clone()?)))
}

// The world is made last: it is the largest of these, and what is alive at an exit is proved there once more.
fn make_system(
    rt: &HostRuntime,
    level: Level,
    guarded: Vec<GuardedFolder>,
    watched: List<Path>,
    phases: Phases,
) -> Result<System, Unstarted>
    ensures { IfOk result (λ system. length system.spawners.items ≡ 64) }
{
    let out = sink(rt)?;
    let spawners = make_spawners(rt, level)?;
    let clone = rt.clone()?;
    let files = guarded_files(rt, guarded, watched)?;
    Ok(System {
        world: ProgressWorld::new(files, clone, level, phases),
        spawners,
        out,
    })
}

/// Begins with the words and the environment of the process.
pub fn start(rt: &HostRuntime) -> Result<MainStarted, Unstarted>
    ensures spawners { IfOk result (λ started. length started.spawners.items ≡ 64) }
    ensures caches { IfOk result (λ started. started.caches ≡ caches_by (map string_bytes started.words.items)) }
    ensures few { IfOk result (λ started. length started.caches < 2 ^ 32) }
{
    start_with(rt, words(rt)?)
}

fn start_with(rt: &HostRuntime, words: Vec<String>) -> Result<MainStarted, Unstarted>
    ensures spawners { IfOk result (λ started. length started.spawners.items ≡ 64) }
    ensures caches { IfOk result (λ started. started.caches ≡ caches_by (map string_bytes started.words.items)) }
    ensures few { IfOk result (λ started. length started.caches < 2 ^ 32) }
{
    let env = environment(rt)?;
    let Folders {
        caches,
        guarded,
        watched,
        phases,
        fills_caches,
    } = folders_in(rt, words.as_slice())?;
    let System {
        world,
        spawners,
        out,
    } = make_system(rt, level_in(&env), guarded, watched, phases)?;
    Ok(Started {
        words,
        env,
        world,
        spawners,
        caches,
        fills_caches,
        out,
    })
}
