// The options of `build`.
ghost use Rattle.std.specs.Prelude.{IfOk, map, string_bytes};
ghost use Rattle.std.specs.Option.{option_and_then};
ghost use Rattle.cnb_words.specs.Faults.{AreReadAs};
ghost use Rattle.cnb_words.specs.Options.{options_in};
ghost use Rattle.cnb_words.specs.Build.{build_in, build_values, KeepsLimits};

use crate::fault::WordsFault;
use crate::option_values::path_of;
use crate::options::Options;
use crate::reading::read_options;
use cnb_world::Path;
use std::alloc::Global;

/// What the words of `build` ask for (platform.md, "builder").
#[derive(Drop)]
pub struct BuildWords {
    pub buildpacks: Path,
    pub app: Path,
    pub platform: Path,
    pub work: Path,
    pub layers: Path,
}

// What the options ask for, where each that must be given is.
fn build_values(alloc: Global, options: &Options) -> Result<BuildWords, WordsFault>
    ensures reads { AreReadAs result (build_values options.now) }
    ensures limits { IfOk result KeepsLimits }
{
    let buildpacks = path_of(alloc, options, "buildpacks")?;
    let app = path_of(alloc, options, "app")?;
    let platform = path_of(alloc, options, "platform")?;
    let work = path_of(alloc, options, "work")?;
    let layers = path_of(alloc, options, "layers")?;
    Ok(BuildWords {
        buildpacks,
        app,
        platform,
        work,
        layers,
    })
}

/// What the words behind `build` ask for.
pub(crate) fn build_in(alloc: Global, words: &[String]) -> Result<BuildWords, WordsFault>
    ensures reads { AreReadAs result (option_and_then build_in (options_in (map string_bytes words.now))) }
    ensures limits { IfOk result KeepsLimits }
{
    let options = read_options(
        alloc,
        &["buildpacks", "app", "platform", "work", "layers"],
        &[],
        words,
    )?;
    build_values(alloc, &options)
}
