// Scripts in memory.
use crate::fault::LineFault;
use crate::stage::Stage;
use crate::texts::{given, numbers};
use crate::things::{held, placed, plays, replies};
use cnb_world::{
    Bytes, DetectRun, Env, List, MemShelf, MemSpawner, MemWorld, Reply, Spawner, SureSpawner, Text,
};
use row_files::{Row, RowFault};
use std::alloc::{AllocError, Global};

/// The folder of scripts in memory.
pub const FOLDER: &str = "/stage";

/// Plays a row's script in memory, and tells the children that ran.
pub(crate) fn in_memory(rt: &HostRuntime, row: &Row) -> Result<String, LineFault> {
    let replies = replies(rt.alloc(), given(row, "replies"))?;
    if given(row, "spawner") == "sure" {
        by_sure_children(rt, row, replies)
    } else {
        by_children(rt, row, replies)
    }
}

// Plays it where a child without a reply ends too, with code 100.
fn by_sure_children(
    rt: &HostRuntime,
    row: &Row,
    replies: List<Reply>,
) -> Result<String, LineFault> {
    let spawner = SureSpawner::new(rt.alloc(), replies)?;
    let mut stage = stage(rt, row, spawner)?;
    told_by_sure_children(row, &mut stage)
}

fn told_by_sure_children(
    row: &Row,
    stage: &mut Stage<MemWorld, SureSpawner, MemShelf>,
) -> Result<String, LineFault> {
    let alloc = stage.rt.alloc();
    let mut told = stage.play(row.text(alloc, "script")?)?;
    push_asked(&mut told, stage.spawner.runs())?;
    Ok(told)
}

// Plays it where a child without a reply can't be run, nor one that the row names as failing.
fn by_children(rt: &HostRuntime, row: &Row, replies: List<Reply>) -> Result<String, LineFault> {
    let failing = numbers(rt.alloc(), row, "failing_detect")?;
    let spawner = MemSpawner::new(rt.alloc(), replies, failing)?;
    let mut stage = stage(rt, row, spawner)?;
    told_by_children(row, &mut stage)
}

fn told_by_children(
    row: &Row,
    stage: &mut Stage<MemWorld, MemSpawner, MemShelf>,
) -> Result<String, LineFault> {
    let alloc = stage.rt.alloc();
    let mut told = stage.play(row.text(alloc, "script")?)?;
    push_runs(&mut told, &stage.world)?;
    push_asked(&mut told, stage.spawner.runs())?;
    Ok(told)
}

fn stage<S: Spawner + Drop>(
    rt: &HostRuntime,
    row: &Row,
    spawner: S,
) -> Result<Stage<MemWorld, S, MemShelf>, LineFault> {
    let alloc = rt.alloc();
    let folder = String::from_str(alloc, FOLDER)?;
    let world = world(alloc, row)?;
    let cache = cache(alloc, row)?;
    Ok(Stage {
        rt: *rt,
        folder,
        env: Env::new(alloc),
        world,
        spawner,
        cache,
    })
}

fn world(alloc: Global, row: &Row) -> Result<MemWorld, LineFault> {
    let failing = numbers(alloc, row, "failing")?;
    let (items, plays) = (placed(alloc, row)?, plays(alloc, row)?);
    Ok(MemWorld::new(alloc, items, plays, failing)?)
}

fn cache(alloc: Global, row: &Row) -> Result<MemShelf, LineFault> {
    let failing = numbers(alloc, row, "failing_cache")?;
    let rows = Bytes::of(alloc, given(row, "cache_rows").as_bytes())?;
    let held = held(alloc, given(row, "held"))?;
    Ok(MemShelf::new(alloc, rows, held, failing)?)
}

// Adds the children that ran, with their arguments.
fn push_runs(told: &mut String, world: &MemWorld) -> Result<(), LineFault> {
    for run in world.runs()? {
        told.push_str("ran ")?;
        told.push_str(run.job.program.as_str())?;
        push_args(told, run.job.args.as_slice())?;
    }
    Ok(())
}

fn push_args(told: &mut String, args: &[Text]) -> Result<(), AllocError> {
    for arg in args {
        told.push_str("|")?;
        told.push_str(arg.as_str())?;
    }
    told.push_str("\n")
}

// Adds the detect children that ended.
fn push_asked(told: &mut String, runs: &[DetectRun]) -> Result<(), AllocError> {
    for run in runs {
        let (id, program) = (run.job.id.as_str(), run.job.program.as_str());
        writeln!(told, "asked {id} by {program}")?;
    }
    Ok(())
}
