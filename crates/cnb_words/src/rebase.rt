// The options of `rebase`.
ghost use Rattle.std.specs.Prelude.{IfOk, map, string_bytes};
ghost use Rattle.std.specs.Option.{option_and_then};
ghost use Rattle.cnb_words.specs.Faults.{AreReadAs};
ghost use Rattle.cnb_words.specs.Options.{options_in};
ghost use Rattle.cnb_words.specs.Rebase.{rebase_in, KeepsLimits};

use crate::fault::WordsFault;
use crate::option_values::{image_of, path_of};
use crate::reading::read_options;
use cnb_toml::ImageName;
use cnb_world::Path;
use std::alloc::Global;

/// What the words of `rebase` ask for (platform.md, "rebaser").
#[derive(Drop)]
pub struct RebaseWords {
    pub store: Path,
    pub image: ImageName,
    pub run: ImageName,
}

/// What the words behind `rebase` ask for.
pub(crate) fn rebase_in(alloc: Global, words: &[String]) -> Result<RebaseWords, WordsFault>
    ensures reads { AreReadAs result (option_and_then rebase_in (options_in (map string_bytes words.now))) }
    ensures limits { IfOk result KeepsLimits }
{
    let options = read_options(alloc, &["store", "image", "run"], &[], words)?;
    let store = path_of(alloc, &options, "store")?;
    let image = image_of(alloc, &options, "image")?;
    let run = image_of(alloc, &options, "run")?;
    Ok(RebaseWords { store, image, run })
}
