// The options of `base`.
ghost use Rattle.std.specs.Prelude.{IfOk, map, string_bytes};
ghost use Rattle.std.specs.Option.{option_and_then};
ghost use Rattle.cnb_words.specs.Faults.{AreReadAs};
ghost use Rattle.cnb_words.specs.Options.{options_in};
ghost use Rattle.cnb_words.specs.Base.{base_in, base_values, KeepsLimits};

use crate::fault::WordsFault;
use crate::option_values::{image_of, path_of, target_of, trees_of};
use crate::options::Options;
use crate::reading::read_options;
use cnb_toml::ImageName;
use cnb_world::{List, Path, Text};
use std::alloc::Global;

/// What the words of `base` ask for.
#[derive(Drop)]
pub struct BaseWords {
    pub store: Path,
    pub run: ImageName,
    pub os: Text,
    pub arch: Text,
    pub trees: List<Path>,
}

// What the options ask for, where each that must be given is.
fn base_values(alloc: Global, options: &Options) -> Result<BaseWords, WordsFault>
    ensures reads { AreReadAs result (base_values options.now) }
    ensures limits { IfOk result KeepsLimits }
{
    let store = path_of(alloc, options, "store")?;
    let run = image_of(alloc, options, "run")?;
    let os = target_of(alloc, options, "os")?;
    let arch = target_of(alloc, options, "arch")?;
    let trees = trees_of(alloc, options)?;
    Ok(BaseWords {
        store,
        run,
        os,
        arch,
        trees,
    })
}

/// What the words behind `base` ask for.
pub(crate) fn base_in(alloc: Global, words: &[String]) -> Result<BaseWords, WordsFault>
    ensures reads { AreReadAs result (option_and_then base_in (options_in (map string_bytes words.now))) }
    ensures limits { IfOk result KeepsLimits }
{
    let options = read_options(alloc, &["store", "run", "os", "arch"], &["tree"], words)?;
    base_values(alloc, &options)
}
