// The options that a group is chosen by.
ghost use Rattle.std.specs.Prelude.{IfOk};
ghost use Rattle.cnb_words.specs.Faults.{AreReadAs};
ghost use Rattle.cnb_words.specs.Choice.{choice_values, KeepsLimits};

use crate::fault::WordsFault;
use crate::option_values::{path_of, workers_of};
use crate::options::Options;
use cnb_world::Path;
use std::alloc::Global;

/// What a group is chosen by: the order, and what its buildpacks look at (platform.md, "detector").
#[derive(Drop)]
pub struct ChoiceWords {
    pub order: Path,
    pub buildpacks: Path,
    pub app: Path,
    pub platform: Path,
    pub work: Path,
    pub workers: usize,
}

/// What the options ask for, where each that must be given is.
pub(crate) fn choice_values(alloc: Global, options: &Options) -> Result<ChoiceWords, WordsFault>
    ensures reads { AreReadAs result (choice_values options.now) }
    ensures limits { IfOk result KeepsLimits }
{
    let order = path_of(alloc, options, "order")?;
    let buildpacks = path_of(alloc, options, "buildpacks")?;
    let app = path_of(alloc, options, "app")?;
    let platform = path_of(alloc, options, "platform")?;
    let work = path_of(alloc, options, "work")?;
    let workers = workers_of(options)?;
    Ok(ChoiceWords {
        order,
        buildpacks,
        app,
        platform,
        work,
        workers,
    })
}
