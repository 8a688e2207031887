// Scripts on the system.
use crate::faulty::{Failing, FaultyFiles};
use crate::stage::Stage;
use crate::texts::{given, path_of};
use cnb_host::{FolderShelf, HostSpawner, HostWorld};
use cnb_world::{Env, Path, Shelf};
use row_files::{Row, RowFault};
use std::process::Command;
use std::{env, fs};

/// A stage on the system: its files, its children, and a cache.
pub type SystemStage<C> = Stage<HostWorld<HostRuntime>, HostSpawner<HostRuntime>, C>;

/// Plays a row's script in a folder of the system.
pub(crate) fn on_system(rt: &HostRuntime, row: &Row) -> Result<String, RowFault> {
    play(rt, row, system_cache(rt)?)
}

/// Does the same with a cache for whose files the call fails that is given as `failing`.
pub(crate) fn on_faulty_system(rt: &HostRuntime, row: &Row) -> Result<String, RowFault> {
    let failing = Failing::named(row.text(rt.alloc(), "failing")?);
    let files = FaultyFiles { rt: *rt, failing };
    play(rt, row, FolderShelf::new(files, cache_place(rt)?))
}

fn play<C: Shelf>(rt: &HostRuntime, row: &Row, cache: C) -> Result<String, RowFault> {
    let mut stage = system_stage(rt, row, cache)?;
    let told = play_on(row, &mut stage);
    match fs::remove_dir_all(rt, stage.folder.as_str()) {
        Ok(()) => told,
        Err(fault) => Err(fault.into()),
    }
}

fn play_on<C: Shelf>(row: &Row, stage: &mut SystemStage<C>) -> Result<String, RowFault> {
    let script = row.text(stage.rt.alloc(), "script")?;
    stage.play(script)
}

/// A stage on the system with this cache, in a folder that is made for it.
pub(crate) fn system_stage<C: Shelf>(
    rt: &HostRuntime,
    row: &Row,
    cache: C,
) -> Result<SystemStage<C>, RowFault> {
    let folder = made_folder(rt, row)?;
    Ok(Stage {
        rt: *rt,
        folder,
        env: Env::new(rt.alloc()),
        world: HostWorld::new(*rt),
        spawner: HostSpawner::new(*rt),
        cache,
    })
}

/// The cache of a stage on the system.
pub(crate) fn system_cache(rt: &HostRuntime) -> Result<FolderShelf<HostRuntime>, RowFault> {
    Ok(FolderShelf::new(*rt, cache_place(rt)?))
}

fn made_folder(rt: &HostRuntime, row: &Row) -> Result<String, RowFault> {
    let folder = folder_of(rt)?;
    fs::create_dir(rt, folder.as_str())?;
    make_pipes(rt, folder.as_str(), given(row, "pipes"))?;
    Ok(folder)
}

fn folder_of(rt: &HostRuntime) -> Result<String, RowFault> {
    let above = env::current_dir(rt)?;
    Ok(format!(in rt.alloc(); "{}/stage", above.as_str())?)
}

fn cache_place(rt: &HostRuntime) -> Result<Path, RowFault> {
    let folder = folder_of(rt)?;
    let place = format!(in rt.alloc(); "{}/cache", folder.as_str())?;
    path_of(rt.alloc(), place.as_str())
}

fn make_pipes(rt: &HostRuntime, folder: &str, names: &str) -> Result<(), RowFault> {
    for name in names.split_whitespace() {
        let path = name.replace(rt.alloc(), "~", folder)?;
        Command::new(rt.alloc(), "mkfifo")?
            .arg(path.as_str())?
            .status(rt)?;
    }
    Ok(())
}
