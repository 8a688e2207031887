// The options of `unpack`.
ghost use Rattle.std.specs.Prelude.{IfOk, map, string_bytes};
ghost use Rattle.std.specs.Option.{option_and_then};
ghost use Rattle.cnb_words.specs.Faults.{AreReadAs};
ghost use Rattle.cnb_words.specs.Options.{options_in};
ghost use Rattle.cnb_words.specs.Unpack.{unpack_in, KeepsLimits};

use crate::fault::WordsFault;
use crate::option_values::{image_of, path_of};
use crate::reading::read_options;
use cnb_toml::ImageName;
use cnb_world::Path;
use std::alloc::Global;

/// What the words of `unpack` ask for.
#[derive(Drop)]
pub struct UnpackWords {
    pub store: Path,
    pub image: ImageName,
    pub root: Path,
}

/// What the words behind `unpack` ask for.
pub(crate) fn unpack_in(alloc: Global, words: &[String]) -> Result<UnpackWords, WordsFault>
    ensures reads { AreReadAs result (option_and_then unpack_in (options_in (map string_bytes words.now))) }
    ensures limits { IfOk result KeepsLimits }
{
    let options = read_options(alloc, &["store", "image", "root"], &[], words)?;
    let store = path_of(alloc, &options, "store")?;
    let image = image_of(alloc, &options, "image")?;
    let root = path_of(alloc, &options, "root")?;
    Ok(UnpackWords { store, image, root })
}
