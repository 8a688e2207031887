// The environment of a launch.
ghost use Rattle.std.specs.Prelude.{◌≡◌, IfErr, IfOk, IfSome};
ghost use Rattle.std.specs.List.{All};
ghost use Rattle.std.specs.Option.{option_copied, option_map};
ghost use Rattle.cnb_world.specs.Calls.{MayMisuse};
ghost use Rattle.steps.specs.Causes.{IsAnswer};
ghost use Rattle.steps.specs.Outside.{seen};
ghost use Rattle.steps.specs.Reading.{LeavesUnchanged};
ghost use Rattle.doc_files.specs.Faults.{read_cause};
ghost use Rattle.doc_files.specs.Reading.{BlamesOne};
ghost use Rattle.cnb_env.specs.Layers.{AreShort, IsOfSets, are_fit_launch_sets, launch_env};

use crate::layers::{LayerSet, Phase, apply_sets};
use cnb_toml::ProcType;
use cnb_world::{Env, List, Memory, World};
use doc_files::ReadFault;
use std::alloc::Global;

fn launch_phase(alloc: Global, kind: Option<&ProcType>) -> Result<Phase, Memory>
    ensures { IfOk result (λ phase. phase ≡ Phase.Launch (option_copied kind.entry)) }
{
    match kind {
        Some(kind) => Ok(Phase::Launch(Some(kind.copy(alloc)?))),
        None => Ok(Phase::Launch(None)),
    }
}

/// The environment of a launch (buildpack.md, "Environment"): the base, and then what the layers of each buildpack
/// give. In each layer the files for the type of the process, where it has one, come last.
pub fn launch_env<W: World>(
    alloc: Global,
    world: &mut W,
    base: &Env,
    sets: &List<LayerSet>,
    kind: Option<&ProcType>,
) -> Result<Env, ReadFault>
    requires { All AreShort sets.now }
    ensures reads { IfSome (W.tree world.old) (λ tree.
        IsAnswer read_cause result (launch_env sets.now (option_copied kind.entry) base.now tree)) }
    ensures blames { IfErr result (BlamesOne (IsOfSets sets.now)) }
    ensures leaves { LeavesUnchanged read_cause result (seen W.World world.old) (seen W.World world.new) }
    ensures misused { MayMisuse (option_map (λ tree. are_fit_launch_sets (option_copied kind.entry) tree sets.now)
        (W.tree world.old)) (W.misused world.old) (W.misused world.new) }
{
    let phase = launch_phase(alloc, kind)?;
    let mut env = base.copy()?;
    apply_sets(alloc, world, &mut env, sets.as_slice(), &phase)?;
    Ok(env)
}
