// The options of `export`.
ghost use Rattle.std.specs.Prelude.{IfOk, map, string_bytes};
ghost use Rattle.std.specs.Option.{option_and_then};
ghost use Rattle.cnb_words.specs.Faults.{AreReadAs};
ghost use Rattle.cnb_words.specs.Options.{options_in};
ghost use Rattle.cnb_words.specs.Export.{export_in, export_values, KeepsLimits};

use crate::fault::WordsFault;
use crate::option_values::{caches_of, image_of, path_of};
use crate::options::Options;
use crate::reading::read_options;
use cnb_toml::ImageName;
use cnb_world::{List, Path};
use std::alloc::Global;

/// What the words of `export` ask for (platform.md, "exporter").
#[derive(Drop)]
pub struct ExportWords {
    pub store: Path,
    pub work: Path,
    pub layers: Path,
    pub app: Path,
    pub launcher: Path,
    pub image: ImageName,
    pub caches: List<Path>,
}

// What the options ask for, where each that must be given is.
fn export_values(alloc: Global, options: &Options) -> Result<ExportWords, WordsFault>
    ensures reads { AreReadAs result (export_values options.now) }
    ensures limits { IfOk result KeepsLimits }
{
    let store = path_of(alloc, options, "store")?;
    let work = path_of(alloc, options, "work")?;
    let layers = path_of(alloc, options, "layers")?;
    let app = path_of(alloc, options, "app")?;
    let launcher = path_of(alloc, options, "launcher")?;
    let image = image_of(alloc, options, "image")?;
    let caches = caches_of(alloc, options)?;
    Ok(ExportWords {
        store,
        work,
        layers,
        app,
        launcher,
        image,
        caches,
    })
}

/// What the words behind `export` ask for.
pub(crate) fn export_in(alloc: Global, words: &[String]) -> Result<ExportWords, WordsFault>
    ensures reads { AreReadAs result (option_and_then export_in (options_in (map string_bytes words.now))) }
    ensures limits { IfOk result KeepsLimits }
{
    let options = read_options(
        alloc,
        &["store", "work", "layers", "app", "launcher", "image"],
        &["cache"],
        words,
    )?;
    export_values(alloc, &options)
}
