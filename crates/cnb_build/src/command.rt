// The command `build`.
ghost use Rattle.cnb_words.specs.Build.{KeepsLimits};
ghost use Rattle.steps.specs.Outside.{seen};
ghost use Rattle.cnb_build.specs.Command.{commands_build};

use crate::fault::BuildFault;
use crate::given::{Given, read_given};
use crate::group::build;
use crate::report::built_text;
use cnb_words::BuildWords;
use cnb_world::{Env, Text, World};
use std::alloc::Global;

/// Builds the chosen group in order, and gives the text to be printed (platform.md, "builder").
pub fn build_command<W: World>(
    alloc: Global,
    options: &BuildWords,
    env: &Env,
    world: &mut W,
) -> Result<Text, BuildFault>
    requires limits { KeepsLimits options.now }
    ensures steps { commands_build options.now env.now (seen W.World world.old) result (seen W.World world.new) }
{
    let given = read_given(alloc, options, env, world)?;
    let Given { group, plan, frame } = given;
    let text = built_text(alloc, &group)?;
    build(alloc, world, &frame, &group, plan)?;
    Ok(text)
}
