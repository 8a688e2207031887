// The detection.
ghost use Rattle.std.specs.Prelude.{◌≡◌, ◌<◌, IfOk, OnOk, IsTrue, true, length};
ghost use Rattle.cnb_world.specs.Path.{is_path};
ghost use Rattle.steps.specs.Outside.{spawners_seen};
ghost use Rattle.cnb_drill.specs.Runs.{RunsDrill};
ghost use Rattle.cnb_drill.specs.Spawners.{AnswerBy};
ghost use Rattle.cnb_drill.specs.Frame.{drill_frame};
ghost use Rattle.cnb_drill.specs.Law.{found_in, found_of, IsSetting};

use crate::catalog::catalog;
use crate::order::order;
use crate::spawners::WORKERS;
use bp_docs::Order;
use cnb_world::{Env, List, Memory, Path, PathFault, Spawner, SureSpawner};
use detect_core::{Chosen, DetectEnd, DetectFrame, detect};
use order_expand::{Catalog, OrderFault, check};
use std::alloc::Global;
use std::thread::Threads;

/// What a detection came to, in numbers.
#[derive(Clone, Copy)]
pub(crate) struct Found {
    pub(crate) groups: u32,
    pub(crate) place: u32,
    pub(crate) asked: usize,
    pub(crate) trial: u32,
    pub(crate) trials: u32,
    pub(crate) entries: usize,
}

fn path(alloc: Global, text: &str) -> Result<Path, Memory>
    requires { is_path text.now ≡ true }
    ensures { IfOk result (λ path. path ≡ text.now) }
{
    match Path::parse(alloc, text) {
        Ok(path) => Ok(path),
        Err(PathFault::Memory) => Err(Memory),
        Err(PathFault::NotPath) => unreachable!(),
    }
}

fn frame(alloc: Global) -> Result<DetectFrame, Memory>
    ensures { IfOk result (λ frame. frame ≡ drill_frame) }
{
    let buildpacks = path(alloc, "/b")?;
    let app = path(alloc, "/a")?;
    let platform = path(alloc, "/p")?;
    let work = path(alloc, "/w")?;
    let env = Env::new(alloc);
    let files = List::new(alloc);
    Ok(DetectFrame {
        buildpacks,
        app,
        platform,
        work,
        env,
        files,
        target: None,
    })
}

/// The order of the drill, and all that its detection needs.
#[derive(Drop)]
pub(crate) struct Setting {
    pub(crate) order: Order,
    pub(crate) catalog: Catalog,
    pub(crate) frame: DetectFrame,
}

fn make_setting(alloc: Global) -> Result<Setting, Memory>
    ensures { IfOk result IsSetting }
{
    let order = order(alloc)?;
    let catalog = catalog(alloc)?;
    let frame = frame(alloc)?;
    Ok(Setting {
        order,
        catalog,
        frame,
    })
}

fn memory_of_order(fault: OrderFault) -> Memory
    requires { fault ≡ OrderFault.Memory }
{
    match fault {
        OrderFault::Memory => Memory,
        _ => unreachable!(),
    }
}

fn memory_of_end(end: DetectEnd) -> Memory
    requires { end ≡ DetectEnd.Memory }
{
    match end {
        DetectEnd::Memory => Memory,
        _ => unreachable!(),
    }
}

/// The number of the order's groups.
fn groups(alloc: Global, setting: &Setting) -> Result<u32, Memory>
    requires { IsSetting setting.now }
    ensures { IfOk result (λ groups. groups ≡ 4096) }
{
    match check(alloc, &setting.order, &setting.catalog) {
        Ok(groups) => Ok(groups),
        Err(fault) => Err(memory_of_order(fault)),
    }
}

/// The choice, for which the spawners run the children that have to be asked.
fn choice<R: Threads + Sync>(
    rt: &R,
    alloc: Global,
    number: u32,
    setting: &Setting,
    spawners: &mut Vec<SureSpawner>,
) -> Result<Chosen, Memory>
    requires number { number < 4096 }
    requires setting { IsSetting setting.now }
    requires some { 0 < length spawners.old.items }
    requires says { AnswerBy number (spawners_seen ⟦<SureSpawner as Spawner>⟧ spawners.old.items) }
    ensures choice { IfOk result (λ chosen. found_in chosen ≡ found_of number) }
    ensures runs { RunsDrill number (spawners_seen ⟦<SureSpawner as Spawner>⟧ spawners.old.items) result
        (spawners_seen ⟦<SureSpawner as Spawner>⟧ spawners.new.items) }
{
    match detect(
        rt,
        alloc,
        &setting.order,
        &setting.catalog,
        spawners,
        WORKERS,
        &setting.frame,
    ) {
        Ok(chosen) => Ok(chosen),
        Err(end) => Err(memory_of_end(end)),
    }
}

fn found_in(groups: u32, chosen: &Chosen) -> Found
    requires { groups ≡ 4096 }
    ensures { result ≡ found_in chosen.now }
{
    Found {
        groups,
        place: chosen.place,
        asked: chosen.asked.as_slice().len(),
        trial: chosen.trial,
        trials: chosen.trials,
        entries: chosen.plan.as_slice().len(),
    }
}

/// Makes the order, counts its groups and chooses the first that passes.
pub(crate) fn find<R: Threads + Sync>(
    rt: &R,
    alloc: Global,
    number: u32,
    spawners: &mut Vec<SureSpawner>,
) -> Result<Found, Memory>
    requires number { number < 4096 }
    requires some { 0 < length spawners.old.items }
    requires says { AnswerBy number (spawners_seen ⟦<SureSpawner as Spawner>⟧ spawners.old.items) }
    ensures found { IfOk result (λ found. found ≡ found_of number) }
    ensures runs { RunsDrill number (spawners_seen ⟦<SureSpawner as Spawner>⟧ spawners.old.items) result
        (spawners_seen ⟦<SureSpawner as Spawner>⟧ spawners.new.items) }
{
    let setting = make_setting(alloc)?;
    let groups = groups(alloc, &setting)?;
    let chosen = choice(rt, alloc, number, &setting, spawners)?;
    Ok(found_in(groups, &chosen))
}
