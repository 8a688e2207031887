// The top call.
ghost use Rattle.std.specs.Prelude.{◌≡◌, ◌<◌, ◌≤◌, ◌^◌, false, Err, List as Seq, ℕ, length, map, string_bytes};
ghost use Rattle.std.specs.List.{range_with_len};
ghost use Rattle.cnb_words.specs.Words.{AsksWithinLimits};
ghost use Rattle.steps.specs.Outside.{faults_of, outside, seen, spawners_seen};
ghost use Rattle.steps.specs.Steps.{gives};
ghost use Rattle.shelf_set.specs.Caches.{caches_of};
ghost use Rattle.shelf_set.specs.ShelfState.{shelves_seen};
ghost use Rattle.cnb_lifecycle.specs.Commands.{after_words, asked_of, command_in, does, options_in, options_of_create};
ghost use Rattle.cnb_lifecycle.specs.Commands.{options_of_detect, refusal_of, uses_caches, On};
ghost use Rattle.cnb_lifecycle.specs.Detecting.{ComesToWords};
ghost use Rattle.cnb_lifecycle.specs.Ends.{CauseOfChild, CauseOfFile, Ends};
ghost use Rattle.cnb_lifecycle.specs.Faults.{cause_of, of_detect};
ghost use Rattle.cnb_lifecycle.specs.FirstTrial.{decides};
ghost use Rattle.cnb_lifecycle.specs.Fitting.{NoMisuseBy};
ghost use Rattle.cnb_lifecycle.specs.Keeping.{KeepsImage, OnRefusal};
ghost use Rattle.cnb_lifecycle.specs.Leaving.{LeavesImage, OnDone};
ghost use Rattle.cnb_lifecycle.specs.Printing.{CountsOutput};
ghost use Rattle.cnb_create.specs.Headline.{ComesToImage};
ghost use Rattle.cnb_create.specs.Surroundings.{over_outside, surroundings};
ghost use Rattle.cnb_lifecycle.specs.PhaseFaults.{of_create};
ghost use Rattle.cnb_lifecycle.specs.Telling.{tells};

use crate::answer::Answer;
use crate::caches::numbers;
use crate::commands::command;
use crate::drilling::run_drill;
use crate::launching::{run_launch, run_unpack};
use crate::phases::{run_create, run_export, run_restore};
use crate::printing::finish;
use crate::refusal::Refusal;
use crate::running::{
    run_analyze, run_base, run_build, run_check, run_detect, run_prune, run_rebase, run_show,
    run_verify,
};
use crate::status::Status;
use cnb_words::Asked;
use cnb_world::{Env, List, Shelf, Sink, Spawner, World};
use shelf_set::Shelves;
use std::alloc::Global;
use std::mem::drop;
use std::thread::Threads;

// Does what was asked for. `places` has the numbers of the shelves that stand.
fn run_asked<W: World, S: Spawner + Send, R: Threads + Sync>(
    rt: &R,
    alloc: Global,
    asked: &Asked,
    env: &Env,
    world: &mut W,
    spawners: &mut Vec<S>,
    shelves: &mut Shelves,
    places: List<u32>,
) -> Result<Answer, Refusal>
    requires limits { AsksWithinLimits asked.now }
    requires spawners { 0 < length spawners.old.items }
    requires standing { length places ≤ length shelves.old.items }
    requires few { length shelves.old.items < 2 ^ 32 }
    ensures does { (standing : Seq ℕ) × does asked.now env.now
        (surroundings (outside W.World S.Spawner world.old spawners.old.items)
        (caches_of (shelves_seen ⟦<dyn Shelf as Shelf>⟧ shelves.old.items) places))
        result
        (surroundings (outside W.World S.Spawner world.new spawners.new.items)
        (caches_of (shelves_seen ⟦<dyn Shelf as Shelf>⟧ shelves.new.items) standing)) }
    ensures shelves { (uses_caches asked.now ≡ false) → (shelves.new.items ≡ shelves.old.items) }
{
    match asked {
        Asked::Detect(options) => run_detect(rt, alloc, options, env, world, spawners),
        Asked::Build(options) => run_build(alloc, options, env, world),
        Asked::Analyze(options) => run_analyze(alloc, options, world),
        Asked::Restore(options) => run_restore(alloc, options, world, shelves, places),
        Asked::Export(options) => run_export(alloc, options, world, shelves, places),
        Asked::Create(options) => {
            run_create(rt, alloc, options, env, world, spawners, shelves, places)
        }
        Asked::Rebase(options) => run_rebase(alloc, options, world),
        Asked::Base(options) => run_base(alloc, options, world),
        Asked::Unpack(options) => run_unpack(alloc, options, world),
        Asked::Show(options) => run_show(alloc, options, world),
        Asked::Prune(options) => run_prune(alloc, options, world),
        Asked::Verify(options) => run_verify(alloc, options, world),
        Asked::Check(options) => run_check(alloc, options, world),
        Asked::Drill(options) => run_drill(rt, alloc, options),
        Asked::Launch(options) => run_launch(alloc, options, env, world),
    }
}

// Does what the words ask for. All caches stand at first.
fn run_words<W: World, S: Spawner + Send, R: Threads + Sync>(
    rt: &R,
    alloc: Global,
    words: &[String],
    env: &Env,
    world: &mut W,
    spawners: &mut Vec<S>,
    shelves: &mut Shelves,
) -> Result<Answer, Refusal>
    requires spawners { 0 < length spawners.old.items }
    requires few { length shelves.old.items < 2 ^ 32 }
    ensures refused { let all = range_with_len 0 (length shelves.old.items) in
        On (refusal_of (command_in (map string_bytes words.now) env.now)) (λ refusal. gives cause_of (Err refusal)
        (surroundings (outside W.World S.Spawner world.old spawners.old.items)
        (caches_of (shelves_seen ⟦<dyn Shelf as Shelf>⟧ shelves.old.items) all))
        result
        (surroundings (outside W.World S.Spawner world.new spawners.new.items)
        (caches_of (shelves_seen ⟦<dyn Shelf as Shelf>⟧ shelves.new.items) all))) }
    ensures idle { On (refusal_of (command_in (map string_bytes words.now) env.now)) (λ refusal.
        (world.new ≡ world.old) × (spawners.new.items ≡ spawners.old.items) × (shelves.new.items ≡ shelves.old.items)) }
    ensures does { let all = range_with_len 0 (length shelves.old.items) in
        On (asked_of (command_in (map string_bytes words.now) env.now)) (λ asked.
        (standing : Seq ℕ) × after_words (does asked env.now)
        (surroundings (outside W.World S.Spawner world.old spawners.old.items)
        (caches_of (shelves_seen ⟦<dyn Shelf as Shelf>⟧ shelves.old.items) all))
        result
        (surroundings (outside W.World S.Spawner world.new spawners.new.items)
        (caches_of (shelves_seen ⟦<dyn Shelf as Shelf>⟧ shelves.new.items) standing))) }
    ensures shelves { On (asked_of (command_in (map string_bytes words.now) env.now)) (λ asked.
        (uses_caches asked ≡ false) → (shelves.new.items ≡ shelves.old.items)) }
{
    let places = numbers(alloc, shelves.len() as u32)?;
    let asked = command(alloc, words, env)?;
    let end = run_asked(rt, alloc, &asked, env, world, spawners, shelves, places);
    drop(asked);
    end
}

/// Does what the words ask for, writes the text of its end, and gives the status. The first word is the program's own.
pub fn lifecycle<W: World, S: Spawner + Send, O: Sink, R: Threads + Sync>(
    rt: &R,
    alloc: Global,
    words: &[String],
    env: &Env,
    world: &mut W,
    spawners: &mut Vec<S>,
    shelves: &mut Shelves,
    out: &mut O,
) -> Status
    requires spawners { 0 < length spawners.old.items }
    requires shelves { length shelves.old.items < 2 ^ 32 }

    // Words that are no command, and a Platform API that isn't served, are refused, and nothing outside is looked at.
    ensures refused { let all = range_with_len 0 (length shelves.old.items) in
        On (refusal_of (command_in (map string_bytes words.now) env.now))
        (λ refusal. Ends (gives cause_of (Err refusal))
        (surroundings (outside W.World S.Spawner world.old spawners.old.items)
        (caches_of (shelves_seen ⟦<dyn Shelf as Shelf>⟧ shelves.old.items) all))
        (outside W.World S.Spawner world.new spawners.new.items)
        (shelves_seen ⟦<dyn Shelf as Shelf>⟧ shelves.new.items)
        result (O.taken out.old) (O.taken out.new)) }
    ensures idle { On (refusal_of (command_in (map string_bytes words.now) env.now)) (λ refusal.
        (world.new ≡ world.old) × (spawners.new.items ≡ spawners.old.items) × (shelves.new.items ≡ shelves.old.items)) }
    // Each command does its steps, with all shelves standing, and the status and the text are those of its end.
    ensures does { let all = range_with_len 0 (length shelves.old.items) in
        On (asked_of (command_in (map string_bytes words.now) env.now))
        (λ asked. Ends (after_words (does asked env.now))
        (surroundings (outside W.World S.Spawner world.old spawners.old.items)
        (caches_of (shelves_seen ⟦<dyn Shelf as Shelf>⟧ shelves.old.items) all))
        (outside W.World S.Spawner world.new spawners.new.items)
        (shelves_seen ⟦<dyn Shelf as Shelf>⟧ shelves.new.items)
        result (O.taken out.old) (O.taken out.new)) }
    // So `detect` comes to the choice of the first trial that passes, by the files and by what its children answered,
    // however many workers ran them and in whatever order they finished, or to its refusal; each document is the old
    // one or the whole new one, and all other files are as before. Where a record is asked for, it is left too, and
    // proves the choice.
    ensures outcome { let all = range_with_len 0 (length shelves.old.items) in
        On (options_in options_of_detect (command_in (map string_bytes words.now) env.now)) (λ options.
        Ends (after_words (over_outside (tells Answer.Printed of_detect (ComesToWords options env.now))))
        (surroundings (outside W.World S.Spawner world.old spawners.old.items)
        (caches_of (shelves_seen ⟦<dyn Shelf as Shelf>⟧ shelves.old.items) all))
        (outside W.World S.Spawner world.new spawners.new.items)
        (shelves_seen ⟦<dyn Shelf as Shelf>⟧ shelves.new.items)
        result (O.taken out.old) (O.taken out.new)) }
    // Whatever the children reply, by however many workers and in whatever order they finish: `detect`, with a record
    // and without one, and `create` ask exactly those that have to be asked, each once, and the first trial that passes
    // decides, or they end for want of one. This holds whether contracts see the files or not. No other command asks.
    ensures first_trial { let all = range_with_len 0 (length shelves.old.items) in
        On (asked_of (command_in (map string_bytes words.now) env.now)) (λ asked.
        Ends (after_words (decides asked env.now))
        (surroundings (outside W.World S.Spawner world.old spawners.old.items)
        (caches_of (shelves_seen ⟦<dyn Shelf as Shelf>⟧ shelves.old.items) all))
        (outside W.World S.Spawner world.new spawners.new.items)
        (shelves_seen ⟦<dyn Shelf as Shelf>⟧ shelves.new.items)
        result (O.taken out.old) (O.taken out.new)) }
    // And `create` comes to the image that is defined for the choice of the first trial that passes, by what its children
    // answered, or ends as `detect` is refused.
    ensures headline { let all = range_with_len 0 (length shelves.old.items) in
        On (options_in options_of_create (command_in (map string_bytes words.now) env.now)) (λ options.
        Ends (after_words (tells Answer.Printed of_create (ComesToImage options env.now)))
        (surroundings (outside W.World S.Spawner world.old spawners.old.items)
        (caches_of (shelves_seen ⟦<dyn Shelf as Shelf>⟧ shelves.old.items) all))
        (outside W.World S.Spawner world.new spawners.new.items)
        (shelves_seen ⟦<dyn Shelf as Shelf>⟧ shelves.new.items)
        result (O.taken out.old) (O.taken out.new)) }
    // Where `export`, `create`, `rebase` or `base` is refused, the document that it writes is as it was: of `create` if
    // its path is apart from all else that is written and the build children left it.
    ensures image { On (asked_of (command_in (map string_bytes words.now) env.now)) (λ asked.
        OnRefusal result (KeepsImage asked (seen W.World world.old) (seen W.World world.new))) }
    // Where `export`, `create`, `rebase` or `base` is done, the document that it wrote stands and can be read.
    ensures stands { On (asked_of (command_in (map string_bytes words.now) env.now)) (λ asked.
        OnDone result (LeavesImage asked (W.tree world.new))) }

    // Each failure of the outside is counted, and told by the status.
    ensures files { CauseOfFile result (W.file_faults world.old) (W.file_faults world.new) }
    ensures children { CauseOfChild result
        (W.child_faults world.old) (W.child_faults world.new)
        (faults_of (spawners_seen S.Spawner spawners.old.items))
        (faults_of (spawners_seen S.Spawner spawners.new.items)) }
    ensures output { CountsOutput result (O.faults out.old) (O.faults out.new) }
    // Where the files fit the command, and so do its caches and what its children leave, no call is on a path of the wrong
    // kind.
    ensures misused { On (asked_of (command_in (map string_bytes words.now) env.now)) (λ asked.
        NoMisuseBy asked (shelves_seen ⟦<dyn Shelf as Shelf>⟧ shelves.old.items)
        (seen W.World world.old) (seen W.World world.new)) }
    // A command that needs no cache looks at none.
    ensures shelves { On (asked_of (command_in (map string_bytes words.now) env.now)) (λ asked.
        (uses_caches asked ≡ false) → (shelves.new.items ≡ shelves.old.items)) }
{
    let end = run_words(rt, alloc, words, env, world, spawners, shelves);
    finish(alloc, end, out)
}
