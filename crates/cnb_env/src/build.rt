// The environment of a build.
ghost use Rattle.std.specs.Prelude.{◌≡◌, IfErr, IfSome, OnOk};
ghost use Rattle.std.specs.List.{All};
ghost use Rattle.std.specs.Option.{option_copied, option_map};
ghost use Rattle.cnb_world.specs.Calls.{MayMisuse};
ghost use Rattle.steps.specs.Causes.{IsAnswer};
ghost use Rattle.steps.specs.Outside.{seen};
ghost use Rattle.steps.specs.Reading.{LeavesUnchanged};
ghost use Rattle.doc_files.specs.Faults.{read_cause};
ghost use Rattle.doc_files.specs.Reading.{BlamesOne};
ghost use Rattle.cnb_env.specs.Layers.{AreShort, IsOfSets, are_fit_build_sets, build_env, with_platform};

use crate::files::EnvFile;
use crate::layers::{LayerSet, Phase, apply_sets};
use crate::variables::platform;
use cnb_world::{Env, List, Memory, World};
use doc_files::ReadFault;
use std::alloc::Global;

fn apply_platform(alloc: Global, env: &mut Env, files: Option<&List<EnvFile>>) -> Result<(), Memory>
    ensures { OnOk result (env.new ≡ with_platform (option_copied files.entry) env.old) }
{
    if let Some(files) = files {
        platform(alloc, env, files)?;
    }
    Ok(())
}

/// The environment of a build (buildpack.md, "Environment"): the base, then what the layers of each earlier buildpack
/// give, and then the platform's files where there are any.
pub fn build_env<W: World>(
    alloc: Global,
    world: &mut W,
    base: &Env,
    done: &List<LayerSet>,
    files: Option<&List<EnvFile>>,
) -> Result<Env, ReadFault>
    requires { All AreShort done.now }
    ensures reads { IfSome (W.tree world.old) (λ tree.
        IsAnswer read_cause result (build_env done.now (option_copied files.entry) base.now tree)) }
    ensures blames { IfErr result (BlamesOne (IsOfSets done.now)) }
    ensures leaves { LeavesUnchanged read_cause result (seen W.World world.old) (seen W.World world.new) }
    ensures misused { MayMisuse (option_map (λ tree. are_fit_build_sets tree done.now) (W.tree world.old))
        (W.misused world.old) (W.misused world.new) }
{
    let mut env = base.copy()?;
    apply_sets(alloc, world, &mut env, done.as_slice(), &Phase::Build)?;
    apply_platform(alloc, &mut env, files)?;
    Ok(env)
}
