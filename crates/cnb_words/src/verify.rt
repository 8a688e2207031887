// The options of `verify`.
ghost use Rattle.std.specs.Prelude.{IfOk, map, string_bytes};
ghost use Rattle.std.specs.Option.{option_and_then};
ghost use Rattle.cnb_words.specs.Faults.{AreReadAs};
ghost use Rattle.cnb_words.specs.Options.{options_in};
ghost use Rattle.cnb_words.specs.Verify.{verify_in, KeepsLimits};

use crate::fault::WordsFault;
use crate::option_values::{image_of, path_of};
use crate::reading::read_options;
use cnb_toml::ImageName;
use cnb_world::Path;
use std::alloc::Global;

/// What the words of `verify` ask for.
#[derive(Drop)]
pub struct VerifyWords {
    pub store: Path,
    pub image: ImageName,
}

/// What the words behind `verify` ask for.
pub(crate) fn verify_in(alloc: Global, words: &[String]) -> Result<VerifyWords, WordsFault>
    ensures reads { AreReadAs result (option_and_then verify_in (options_in (map string_bytes words.now))) }
    ensures limits { IfOk result KeepsLimits }
{
    let options = read_options(alloc, &["store", "image"], &[], words)?;
    let store = path_of(alloc, &options, "store")?;
    let image = image_of(alloc, &options, "image")?;
    Ok(VerifyWords { store, image })
}
