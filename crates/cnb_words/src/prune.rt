// The options of `prune`.
ghost use Rattle.std.specs.Prelude.{IfOk, map, string_bytes};
ghost use Rattle.std.specs.Option.{option_and_then};
ghost use Rattle.cnb_words.specs.Faults.{AreReadAs};
ghost use Rattle.cnb_words.specs.Options.{options_in};
ghost use Rattle.cnb_words.specs.Prune.{prune_in, KeepsLimits};

use crate::fault::WordsFault;
use crate::option_values::path_of;
use crate::reading::read_options;
use cnb_world::Path;
use std::alloc::Global;

/// What the words of `prune` ask for.
#[derive(Drop)]
pub struct PruneWords {
    pub store: Path,
}

/// What the words behind `prune` ask for.
pub(crate) fn prune_in(alloc: Global, words: &[String]) -> Result<PruneWords, WordsFault>
    ensures reads { AreReadAs result (option_and_then prune_in (options_in (map string_bytes words.now))) }
    ensures limits { IfOk result KeepsLimits }
{
    let options = read_options(alloc, &["store"], &[], words)?;
    let store = path_of(alloc, &options, "store")?;
    Ok(PruneWords { store })
}
