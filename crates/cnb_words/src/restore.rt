// The options of `restore`.
ghost use Rattle.std.specs.Prelude.{IfOk, map, string_bytes};
ghost use Rattle.std.specs.Option.{option_and_then};
ghost use Rattle.cnb_words.specs.Faults.{AreReadAs};
ghost use Rattle.cnb_words.specs.Options.{options_in};
ghost use Rattle.cnb_words.specs.Restore.{restore_in, restore_values, KeepsLimits};

use crate::fault::WordsFault;
use crate::option_values::{caches_of, path_of};
use crate::options::Options;
use crate::reading::read_options;
use cnb_world::{List, Path};
use std::alloc::Global;

/// What the words of `restore` ask for (platform.md, "restorer").
#[derive(Drop)]
pub struct RestoreWords {
    pub store: Path,
    pub work: Path,
    pub layers: Path,
    pub caches: List<Path>,
}

// What the options ask for, where each that must be given is.
fn restore_values(alloc: Global, options: &Options) -> Result<RestoreWords, WordsFault>
    ensures reads { AreReadAs result (restore_values options.now) }
    ensures limits { IfOk result KeepsLimits }
{
    let store = path_of(alloc, options, "store")?;
    let work = path_of(alloc, options, "work")?;
    let layers = path_of(alloc, options, "layers")?;
    let caches = caches_of(alloc, options)?;
    Ok(RestoreWords {
        store,
        work,
        layers,
        caches,
    })
}

/// What the words behind `restore` ask for.
pub(crate) fn restore_in(alloc: Global, words: &[String]) -> Result<RestoreWords, WordsFault>
    ensures reads { AreReadAs result (option_and_then restore_in (options_in (map string_bytes words.now))) }
    ensures limits { IfOk result KeepsLimits }
{
    let options = read_options(alloc, &["store", "work", "layers"], &["cache"], words)?;
    restore_values(alloc, &options)
}
