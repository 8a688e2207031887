// What the commands do that use caches, with their refusals as the lifecycle's.
ghost use Rattle.std.specs.Prelude.{◌≡◌, ◌<◌, ◌≤◌, ◌^◌, List as Seq, ℕ, length};
ghost use Rattle.cnb_words.specs.Create as create_words;
ghost use Rattle.cnb_words.specs.Export as export_words;
ghost use Rattle.cnb_words.specs.Restore as restore_words;
ghost use Rattle.shelf_set.specs.Caches.{caches_of, caches_seen, world_and_caches};
ghost use Rattle.shelf_set.specs.ShelfState.{shelves_seen};
ghost use Rattle.steps.specs.Outside.{faults_of, outside, seen, spawners_seen};
ghost use Rattle.cnb_create.specs.Creates.{creates};
ghost use Rattle.cnb_create.specs.Surroundings.{surroundings};
ghost use Rattle.cnb_export.specs.Command.{exports_command};
ghost use Rattle.cnb_restore.specs.Commands.{restores_command};
ghost use Rattle.cnb_lifecycle.specs.Ends.{CountsChild};
ghost use Rattle.cnb_lifecycle.specs.Faults.{cause_of};
ghost use Rattle.cnb_lifecycle.specs.PhaseFaults.{of_create, of_export, of_restore_refusal};
ghost use Rattle.cnb_lifecycle.specs.Telling.{tells};

use crate::answer::Answer;
use crate::refusal::Refusal;
use cnb_create::create_command;
use cnb_export::export_command;
use cnb_restore::restore_command;
use cnb_words::{CreateWords, ExportWords, RestoreWords};
use cnb_world::{Env, List, Shelf, Spawner, World};
use shelf_set::{Caches, Shelves};
use std::alloc::Global;
use std::mem;
use std::thread::Threads;

// Takes shelves out of a list that gets them back, the first of them standing, with these numbers.
fn taken(alloc: Global, shelves: &mut Shelves, places: List<u32>) -> Caches
    requires { length places ≤ length shelves.old.items }
    ensures shelves { result.shelves.items ≡ shelves.old.items }
    ensures seen { caches_seen ⟦<dyn Shelf as Shelf>⟧ result
        ≡ caches_of (shelves_seen ⟦<dyn Shelf as Shelf>⟧ shelves.old.items) places }
{
    Caches::new(mem::replace(shelves, Vec::new(alloc)), places)
}

/// Does what the options of `restore` ask for. `places` has the numbers of the shelves that stand.
pub(crate) fn run_restore<W: World>(
    alloc: Global,
    options: &RestoreWords,
    world: &mut W,
    shelves: &mut Shelves,
    places: List<u32>,
) -> Result<Answer, Refusal>
    requires limits { restore_words.KeepsLimits options.now }
    requires standing { length places ≤ length shelves.old.items }
    requires few { length shelves.old.items < 2 ^ 32 }
    ensures steps { (standing : Seq ℕ) × tells Answer.Printed of_restore_refusal (restores_command options.now)
        (world_and_caches (seen W.World world.old)
        (caches_of (shelves_seen ⟦<dyn Shelf as Shelf>⟧ shelves.old.items) places)) result
        (world_and_caches (seen W.World world.new)
        (caches_of (shelves_seen ⟦<dyn Shelf as Shelf>⟧ shelves.new.items) standing)) }
{
    let mut caches = taken(alloc, shelves, places);
    let text = restore_command(alloc, options, world, &mut caches);
    *shelves = caches.shelves;
    Ok(Answer::Printed(text?))
}

/// Does what the options of `export` ask for. `places` has the numbers of the shelves that stand.
pub(crate) fn run_export<W: World>(
    alloc: Global,
    options: &ExportWords,
    world: &mut W,
    shelves: &mut Shelves,
    places: List<u32>,
) -> Result<Answer, Refusal>
    requires limits { export_words.KeepsLimits options.now }
    requires standing { length places ≤ length shelves.old.items }
    ensures steps { (standing : Seq ℕ) × tells Answer.Printed of_export (exports_command options.now)
        (world_and_caches (seen W.World world.old)
        (caches_of (shelves_seen ⟦<dyn Shelf as Shelf>⟧ shelves.old.items) places)) result
        (world_and_caches (seen W.World world.new)
        (caches_of (shelves_seen ⟦<dyn Shelf as Shelf>⟧ shelves.new.items) standing)) }
{
    let mut caches = taken(alloc, shelves, places);
    let text = export_command(alloc, options, world, &mut caches);
    *shelves = caches.shelves;
    Ok(Answer::Printed(text?))
}

/// Does what the options of `create` ask for. `places` has the numbers of the shelves that stand.
pub(crate) fn run_create<W: World, S: Spawner + Send, R: Threads + Sync>(
    rt: &R,
    alloc: Global,
    options: &CreateWords,
    env: &Env,
    world: &mut W,
    spawners: &mut Vec<S>,
    shelves: &mut Shelves,
    places: List<u32>,
) -> Result<Answer, Refusal>
    requires limits { create_words.KeepsLimits options.now }
    requires spawners { 0 < length spawners.old.items }
    requires standing { length places ≤ length shelves.old.items }
    requires few { length shelves.old.items < 2 ^ 32 }
    ensures steps { (standing : Seq ℕ) × tells Answer.Printed of_create (creates options.now env.now)
        (surroundings (outside W.World S.Spawner world.old spawners.old.items)
        (caches_of (shelves_seen ⟦<dyn Shelf as Shelf>⟧ shelves.old.items) places))
        result
        (surroundings (outside W.World S.Spawner world.new spawners.new.items)
        (caches_of (shelves_seen ⟦<dyn Shelf as Shelf>⟧ shelves.new.items) standing)) }
{
    let mut caches = taken(alloc, shelves, places);
    let text = create_command(rt, alloc, options, env, world, spawners, &mut caches);
    *shelves = caches.shelves;
    Ok(Answer::Printed(text?))
}
