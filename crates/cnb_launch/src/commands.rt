// The commands `unpack` and `launch`.
ghost use Rattle.std.specs.Prelude.{◌≡◌, IfOk};
ghost use Rattle.cnb_words.specs.Launch as launch_words;
ghost use Rattle.cnb_words.specs.Unpack as unpack_words;
ghost use Rattle.steps.specs.Outside.{seen};
ghost use Rattle.cnb_launch.specs.Commands.{launches_command, unpacked_text, unpacks_command};

use crate::fault::LaunchFault;
use crate::planning::launch;
use crate::unpacking::unpack;
use cnb_toml::ImageName;
use cnb_words::{LaunchWords, UnpackWords};
use cnb_world::{Env, Memory, Text, World};
use std::alloc::Global;

fn unpacked_text(alloc: Global, image: &ImageName) -> Result<Text, Memory>
    ensures { IfOk result (λ text. text ≡ unpacked_text image.now) }
{
    let mut text = String::from_str(alloc, "unpacked ")?;
    text.push_str(image.as_str())?;
    text.push_str("\n")?;
    Ok(Text::from_string(text))
}

/// Lays an image out under a root, and gives the text to be printed.
pub fn unpack_command<W: World>(
    alloc: Global,
    options: &UnpackWords,
    world: &mut W,
) -> Result<Text, LaunchFault>
    requires { unpack_words.KeepsLimits options.now }
    ensures steps { unpacks_command options.now (seen W.World world.old) result (seen W.World world.new) }
{
    let text = unpacked_text(alloc, &options.image)?;
    unpack(alloc, world, &options.store, &options.image, &options.root)?;
    Ok(text)
}

/// Runs what the words ask for of the image under a root, and gives the exit code of the child, where it has one
/// (platform.md, "launcher").
pub fn launch_command<W: World>(
    alloc: Global,
    options: &LaunchWords,
    env: &Env,
    world: &mut W,
) -> Result<Option<i32>, LaunchFault>
    requires { launch_words.KeepsLimits options.now }
    ensures steps { launches_command options.now env.now (seen W.World world.old) result (seen W.World world.new) }
{
    let end = launch(alloc, world, &options.root, &options.call, env)?;
    Ok(end.code)
}
