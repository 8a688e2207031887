// Detect children asked side by side.
ghost use Rattle.std.specs.Prelude.{◌≡◌, IfOk, length};

use crate::children::{detect_job, end_text};
use crate::fault::{LineFault, NO_MEMORY};
use crate::stage::{Line, Stage};
use crate::system::{SystemStage, system_cache, system_stage};
use crate::texts::add_line;
use cnb_host::HostSpawner;
use cnb_world::{DetectJob, Probed, Shelf, Spawner, World};
use row_files::{Row, RowFault};
use std::alloc::{AllocError, Global};
use std::fs;
use std::thread::Threads;
use ticket_pool::{PoolFault, Tickets, run_all};

/// No more children, and no more workers, are asked at once.
const MOST: u64 = 64;

/// Plays a row's script on the system, and then runs detect children by so many workers.
pub(crate) fn side_by_side<R: Threads + Sync>(
    threads: &R,
    rt: &HostRuntime,
    row: &Row,
) -> Result<String, LineFault> {
    let mut stage = system_stage(rt, row, system_cache(rt)?)?;
    let told = told(threads, row, &mut stage);
    match fs::remove_dir_all(rt, stage.folder.as_str()) {
        Ok(()) => told,
        Err(fault) => Err(fault.into()),
    }
}

// Plays the script, then asks the children, and tells what came of both.
fn told<R: Threads + Sync, C: Shelf>(
    threads: &R,
    row: &Row,
    stage: &mut SystemStage<C>,
) -> Result<String, LineFault> {
    let alloc = stage.rt.alloc();
    let mut told = stage.play(row.text(alloc, "script")?)?;
    push_ends(alloc, &mut told, &ask_all(threads, row, stage)?)?;
    Ok(told)
}

// Adds how each child ended.
fn push_ends(alloc: Global, told: &mut String, ends: &[Probed]) -> Result<(), RowFault> {
    for end in ends {
        let text = end_text(alloc, end.code, end.passed_code(), end.plan.as_slice())?;
        add_line(told, Ok(text))?;
    }
    Ok(())
}

fn ask_all<R: Threads + Sync, C: Shelf>(
    threads: &R,
    row: &Row,
    stage: &SystemStage<C>,
) -> Result<Vec<Probed>, LineFault> {
    let alloc = stage.rt.alloc();
    let workers = row.number(alloc, "workers")?;
    let jobs = jobs(alloc, stage, row.text(alloc, "asked")?)?;
    ask(threads, &stage.rt, jobs.as_slice(), workers)
}

// The jobs of lines `detect ID PROGRAM`.
fn jobs<W: World + Drop, S: Spawner + Drop, C: Shelf>(
    alloc: Global,
    stage: &Stage<W, S, C>,
    lines: &str,
) -> Result<Vec<DetectJob>, LineFault> {
    let folder = stage.folder.as_str();
    let lines = lines.replace(alloc, "~", folder)?;
    let mut jobs = Vec::new(alloc);
    for line in lines.as_str().lines() {
        jobs.push(detect_job(alloc, folder, &stage.env, Line::of(line))?)?;
    }
    Ok(jobs)
}

fn ask<R: Threads + Sync>(
    threads: &R,
    rt: &HostRuntime,
    jobs: &[DetectJob],
    workers: u64,
) -> Result<Vec<Probed>, LineFault> {
    let alloc = rt.alloc();
    if workers == 0 || workers > MOST || jobs.len() as u64 > MOST {
        return Err(RowFault::wrong(alloc, "as many can't be asked by", "workers").into());
    }
    let workers = workers as usize;
    let mut spawners = make_spawners(rt, workers)?;
    let (round, mut pass) = Tickets::new(alloc, jobs.len() as u32, workers as u32)?;
    match run_all(
        threads,
        alloc,
        &mut spawners,
        workers,
        jobs,
        &round,
        &mut pass,
    ) {
        Ok(ends) => Ok(ends),
        Err(PoolFault::Child) => Err(LineFault::Failed),
        Err(PoolFault::Memory) => Err(NO_MEMORY),
    }
}

fn make_spawners(
    rt: &HostRuntime,
    count: usize,
) -> Result<Vec<HostSpawner<HostRuntime>>, AllocError>
    ensures { IfOk result (λ spawners. length spawners.items ≡ count) }
{
    let mut spawners = Vec::new(rt.alloc());
    for _ in 0..count {
        spawners.push(HostSpawner::new(*rt))?;
    }
    Ok(spawners)
}
