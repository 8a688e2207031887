// Doing what the words ask for.
ghost use Rattle.std.specs.Prelude.{◌≡◌, ◌<◌, ◌^◌, IfOk, length, map, string_bytes};
ghost use Rattle.steps.specs.Outside.{outside};
ghost use Rattle.cnb_main.specs.Serving.{Serves};

use cnb_lifecycle::lifecycle;
use cnb_start::{FolderCache, Started};
use cnb_world::{Memory, Path, Shelf, Sink, Spawner, World};
use std::mem::drop;
use std::thread::Threads;

fn cache_at(rt: &HostRuntime, folder: &Path) -> Result<Box<FolderCache>, Memory> {
    let cache = FolderCache::new(rt, folder.copy(rt.alloc())?)?;
    Ok(Box::new(rt.alloc(), cache)?)
}

/// Does what the words ask for, over the caches that they name, and returns the exit status.
pub(crate) fn serve<W: World, S: Spawner + Send, O: Sink, R: Threads + Sync>(
    threads: &R,
    rt: &HostRuntime,
    started: &mut Started<W, S, O>,
) -> Result<u8, Memory>
    requires spawners { 0 < length started.old.spawners.items }
    requires few { length started.old.caches < 2 ^ 32 }
    ensures serves { IfOk result (λ code. Serves
        (map string_bytes started.old.words.items) started.old.env (length started.old.caches)
        (outside W.World S.Spawner started.old.world started.old.spawners.items)
        (outside W.World S.Spawner started.new.world started.new.spawners.items)
        (O.taken started.old.out) (O.taken started.new.out) code) }
{
    let folders = started.caches.as_slice();
    let mut shelves: Vec<Box<dyn Shelf>> = Vec::new(rt.alloc());
    for folder in folders {
        shelves.push(cache_at(rt, folder)?)?;
    }
    let status = lifecycle(
        threads,
        rt.alloc(),
        started.words.as_slice(),
        &started.env,
        &mut started.world,
        &mut started.spawners,
        &mut shelves,
        &mut started.out,
    );
    let code = status.code();
    drop(status);
    Ok(code)
}
