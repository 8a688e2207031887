// The command `create`.
ghost use Rattle.std.specs.Prelude.{◌<◌, ◌^◌, IsTrue, OnErr, OnOk, length};
ghost use Rattle.cnb_words.specs.Create.{KeepsLimits};
ghost use Rattle.image_files.specs.Images.{ImageStands};
ghost use Rattle.steps.specs.Keeping.{Keeps};
ghost use Rattle.steps.specs.Outside.{outside, seen};
ghost use Rattle.cnb_create.specs.Apart.{image_document, is_image_apart};
ghost use Rattle.cnb_create.specs.Creates.{creates};
ghost use Rattle.cnb_create.specs.Headline.{ComesToImage};
ghost use Rattle.shelf_set.specs.Caches.{caches_seen};
ghost use Rattle.cnb_create.specs.Surroundings.{surroundings};

use crate::building::build_group;
use crate::choosing::choose;
use crate::exporting::leave_image;
use crate::images::look_at_images;
use crate::phases::Phases;
use crate::refusal::CreateRefusal;
use crate::restoring::restore_layers;
use cnb_words::CreateWords;
use cnb_world::{Env, Shelf, Spawner, Text, World};
use detect_core::Chosen;
use shelf_set::Caches;
use std::alloc::Global;
use std::thread::Threads;

/// Analyzes the images, chooses a group, restores its layers, builds it and exports the image, and gives the text to be
/// printed (platform.md, "creator"). The image's document is written last.
pub fn create_command<W: World, S: Spawner + Send, R: Threads + Sync>(
    rt: &R,
    alloc: Global,
    options: &CreateWords,
    env: &Env,
    world: &mut W,
    spawners: &mut Vec<S>,
    caches: &mut Caches,
) -> Result<Text, CreateRefusal>
    requires limits { KeepsLimits options.now }
    requires spawners { 0 < length spawners.old.items }
    requires few { length caches.old.shelves.items < 2 ^ 32 }
    // It does its steps in their order.
    ensures steps { creates options.now env.now
        (surroundings (outside W.World S.Spawner world.old spawners.old.items)
        (caches_seen ⟦<dyn Shelf as Shelf>⟧ caches.old))
        result
        (surroundings (outside W.World S.Spawner world.new spawners.new.items)
        (caches_seen ⟦<dyn Shelf as Shelf>⟧ caches.new)) }
    // So what it chooses is the first trial that passes, by the files and by what its children answered, however many
    // workers ran them and in whatever order they finished.
    ensures headline { ComesToImage options.now env.now
        (surroundings (outside W.World S.Spawner world.old spawners.old.items)
        (caches_seen ⟦<dyn Shelf as Shelf>⟧ caches.old))
        result
        (surroundings (outside W.World S.Spawner world.new spawners.new.items)
        (caches_seen ⟦<dyn Shelf as Shelf>⟧ caches.new)) }
    // Where it is refused, the image's document is as it was, if the work folder isn't in the store and the layers folder is
    // apart from it, or else the document is apart from all that is written, and the build children left it.
    ensures image { OnErr result (IsTrue (is_image_apart options.now) →
        Keeps (image_document options.now) (seen W.World world.old) (seen W.World world.new)) }
    // Where it isn't, the image's document stands and can be read.
    ensures stands { OnOk result (ImageStands options.now.store options.now.image (W.tree world.new)) }
{
    // The proof takes from this call what each path keeps to.
    let _layers = options.layers.as_str();
    let _work = options.detect.work.as_str();
    let analyzed = look_at_images(alloc, options, world)?;
    let chosen = choose(rt, alloc, &analyzed, &options.detect, env, world, spawners)?;
    let Chosen { group, plan, .. } = chosen;
    let restored = restore_layers(alloc, options, world, caches, &analyzed, &group)?;
    let entries = plan.as_slice().len();
    build_group(alloc, &analyzed, options, env, world, &group, plan)?;
    let phases = Phases {
        analyzed,
        group,
        entries,
        restored,
    };
    leave_image(alloc, options, world, caches, &phases)
}
