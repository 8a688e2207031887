// The spawners.
ghost use Rattle.std.specs.Prelude.{◌≡◌, ◌<◌, IfOk, replicate};
ghost use Rattle.steps.specs.Outside.{spawner_seen, spawners_seen};
ghost use Rattle.cnb_drill.specs.Spawners.{new_spawner};

use crate::replies::replies;
use cnb_world::{Memory, Spawner, SureSpawner};
use std::alloc::Global;

/// How many spawners there are, and how many workers share them.
pub(crate) const WORKERS: usize = 8;

fn spawner(alloc: Global, number: u32) -> Result<SureSpawner, Memory>
    ensures { IfOk result (λ spawner.
        spawner_seen ⟦<SureSpawner as Spawner>⟧ spawner ≡ new_spawner number) }
{
    let table = replies(alloc, number)?;
    let spawner = SureSpawner::new(alloc, table)?;
    Ok(spawner)
}

/// Eight spawners that ran no children yet. Their children answer so that the group of this number, which is counted
/// from 0, is the first of the order's 4,096 groups that passes.
pub fn drill_spawners(alloc: Global, number: u32) -> Result<Vec<SureSpawner>, Memory>
    ensures { IfOk result (λ spawners.
        spawners_seen ⟦<SureSpawner as Spawner>⟧ spawners.items ≡ replicate WORKERS (new_spawner number)) }
{
    let mut spawners = Vec::new(alloc);
    for _ in 0..WORKERS {
        spawners.push(spawner(alloc, number)?)?;
    }
    Ok(spawners)
}
