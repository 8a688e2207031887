// What `unpack` and `launch` do, with their refusals as the lifecycle's.
ghost use Rattle.std.specs.Prelude.{List as Seq, ℕ};
ghost use Rattle.cnb_words.specs.Launch as launch_words;
ghost use Rattle.cnb_words.specs.Unpack as unpack_words;
ghost use Rattle.steps.specs.Outside.{seen};
ghost use Rattle.cnb_launch.specs.Commands.{launches_command, unpacks_command};
ghost use Rattle.cnb_lifecycle.specs.Ends.{CountsChild};
ghost use Rattle.cnb_lifecycle.specs.Faults.{cause_of};
ghost use Rattle.cnb_lifecycle.specs.PhaseFaults.{of_launch};
ghost use Rattle.cnb_lifecycle.specs.Telling.{tells};

use crate::answer::Answer;
use crate::refusal::Refusal;
use cnb_launch::{launch_command, unpack_command};
use cnb_words::{LaunchWords, UnpackWords};
use cnb_world::{Env, World};
use std::alloc::Global;

/// Does what the options of `unpack` ask for.
pub(crate) fn run_unpack<W: World>(
    alloc: Global,
    options: &UnpackWords,
    world: &mut W,
) -> Result<Answer, Refusal>
    requires limits { unpack_words.KeepsLimits options.now }
    ensures steps { tells Answer.Printed of_launch (unpacks_command options.now)
        (seen W.World world.old) result (seen W.World world.new) }
{
    let text = unpack_command(alloc, options, world)?;
    Ok(Answer::Printed(text))
}

/// Does what the words of `launch` ask for.
pub(crate) fn run_launch<W: World>(
    alloc: Global,
    options: &LaunchWords,
    env: &Env,
    world: &mut W,
) -> Result<Answer, Refusal>
    requires limits { launch_words.KeepsLimits options.now }
    ensures steps { tells Answer.Launched of_launch (launches_command options.now env.now)
        (seen W.World world.old) result (seen W.World world.new) }
{
    let code = launch_command(alloc, options, env, world)?;
    Ok(Answer::Launched(code))
}
