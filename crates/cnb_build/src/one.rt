// The build of one buildpack.
ghost use Rattle.std.specs.Prelude.{◌≡◌, IfOk, IsTrue};
ghost use Rattle.std.specs.List.{All};
ghost use Rattle.cnb_env.specs.Layers.{AreShort};
ghost use Rattle.run_docs.specs.Plan.{is_plan_doc};
ghost use Rattle.steps.specs.Outside.{seen};
ghost use Rattle.cnb_build.specs.Builds.{builds_at, builds_one, ends_build, with_layers};
ghost use Rattle.cnb_build.specs.Places.{HasRoom, KeepsLimits};

use crate::closing::close;
use crate::fault::BuildFault;
use crate::frame::{BuildFrame, Built};
use crate::leaving::read_left;
use crate::places::{Places, places_of};
use crate::preparing::prepare;
use crate::running::run_build;
use cnb_env::LayerSet;
use cnb_world::{Env, List, Memory, World};
use run_docs::{GroupRow, PlanDoc};
use std::alloc::Global;

#[tactic(auto, using(crate::proofs::PlaceLemmas::more_sets_short))]
fn with_layers(
    mut done: List<LayerSet>,
    layers: LayerSet,
    pending: PlanDoc,
) -> Result<Built, Memory>
    requires all { All AreShort done }
    requires short { AreShort layers }
    ensures built { IfOk result (λ built. built ≡ with_layers done layers pending) }
    ensures short { IfOk result (λ built. All AreShort built.done) }
{
    done.push(layers)?;
    Ok(Built { pending, done })
}

// Closes the plan's entries and reads what the child left.
fn end_build<W: World>(
    alloc: Global,
    world: &mut W,
    row: &GroupRow,
    places: &Places,
    built: Built,
) -> Result<Built, BuildFault>
    requires plan { IsTrue (is_plan_doc built.pending) }
    requires room { HasRoom places.now }
    requires short { All AreShort built.done }
    ensures step { ends_build row.now places.now built (seen W.World world.old) result (seen W.World world.new) }
    ensures kept { IfOk result (λ all. IsTrue (is_plan_doc all.pending)) }
    ensures short { IfOk result (λ all. All AreShort all.done) }
{
    let Built { pending, done } = built;
    let pending = close(alloc, world, row, places, pending)?;
    let layers = read_left(alloc, world, places)?;
    Ok(with_layers(done, layers, pending)?)
}

fn build_at<W: World>(
    alloc: Global,
    world: &mut W,
    frame: &BuildFrame,
    base: &Env,
    row: &GroupRow,
    places: &Places,
    built: Built,
) -> Result<Built, BuildFault>
    requires plan { IsTrue (is_plan_doc built.pending) }
    requires room { HasRoom places.now }
    requires short { All AreShort built.done }
    ensures step { builds_at frame.now base.now row.now built places.now
        (seen W.World world.old) result (seen W.World world.new) }
    ensures kept { IfOk result (λ all. IsTrue (is_plan_doc all.pending)) }
    ensures short { IfOk result (λ all. All AreShort all.done) }
{
    let clear_env = prepare(alloc, world, row, places, &built.pending)?;
    run_build(
        alloc,
        world,
        frame,
        base,
        row,
        places,
        clear_env,
        &built.done,
    )?;
    end_build(alloc, world, row, places, built)
}

/// Builds one buildpack behind others.
pub(crate) fn build_one<W: World>(
    alloc: Global,
    world: &mut W,
    frame: &BuildFrame,
    base: &Env,
    row: &GroupRow,
    built: Built,
) -> Result<Built, BuildFault>
    requires plan { IsTrue (is_plan_doc built.pending) }
    requires limits { KeepsLimits frame.now }
    requires short { All AreShort built.done }
    ensures step { builds_one frame.now base.now row.now built
        (seen W.World world.old) result (seen W.World world.new) }
    ensures kept { IfOk result (λ all. IsTrue (is_plan_doc all.pending)) }
    ensures short { IfOk result (λ all. All AreShort all.done) }
{
    let places = places_of(alloc, frame, &row.key)?;
    build_at(alloc, world, frame, base, row, &places, built)
}
