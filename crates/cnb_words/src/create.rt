// The options of `create`.
ghost use Rattle.std.specs.Prelude.{IfOk, map, string_bytes};
ghost use Rattle.std.specs.Option.{option_and_then};
ghost use Rattle.cnb_words.specs.Faults.{AreReadAs};
ghost use Rattle.cnb_words.specs.Options.{options_in};
ghost use Rattle.cnb_words.specs.Create.{create_in, create_values, image_options, ImageKeepsLimits, KeepsLimits};

use crate::choice::{ChoiceWords, choice_values};
use crate::fault::WordsFault;
use crate::option_values::{caches_of, image_of, optional_image_of, path_of};
use crate::options::Options;
use crate::reading::read_options;
use cnb_toml::ImageName;
use cnb_world::{List, Path};
use std::alloc::Global;

/// What the words of `create` ask for (platform.md, "creator").
#[derive(Drop)]
pub struct CreateWords {
    pub detect: ChoiceWords,
    pub layers: Path,
    pub store: Path,
    pub run: ImageName,
    pub launcher: Path,
    pub image: ImageName,
    pub previous: Option<ImageName>,
    pub caches: List<Path>,
}

// What an image is made of, and what it replaces.
#[derive(Drop)]
struct ImageOptions {
    store: Path,
    run: ImageName,
    launcher: Path,
    image: ImageName,
    previous: Option<ImageName>,
    caches: List<Path>,
}

fn image_options(alloc: Global, options: &Options) -> Result<ImageOptions, WordsFault>
    ensures reads { AreReadAs result (image_options options.now) }
    ensures limits { IfOk result ImageKeepsLimits }
{
    let store = path_of(alloc, options, "store")?;
    let run = image_of(alloc, options, "run")?;
    let launcher = path_of(alloc, options, "launcher")?;
    let image = image_of(alloc, options, "image")?;
    let previous = optional_image_of(alloc, options, "previous")?;
    let caches = caches_of(alloc, options)?;
    Ok(ImageOptions {
        store,
        run,
        launcher,
        image,
        previous,
        caches,
    })
}

fn create_values(alloc: Global, options: &Options) -> Result<CreateWords, WordsFault>
    ensures reads { AreReadAs result (create_values options.now) }
    ensures limits { IfOk result KeepsLimits }
{
    let detect = choice_values(alloc, options)?;
    let layers = path_of(alloc, options, "layers")?;
    let image = image_options(alloc, options)?;
    Ok(CreateWords {
        detect,
        layers,
        store: image.store,
        run: image.run,
        launcher: image.launcher,
        image: image.image,
        previous: image.previous,
        caches: image.caches,
    })
}

/// What the words behind `create` ask for.
pub(crate) fn create_in(alloc: Global, words: &[String]) -> Result<CreateWords, WordsFault>
    ensures reads { AreReadAs result (option_and_then create_in (options_in (map string_bytes words.now))) }
    ensures limits { IfOk result KeepsLimits }
{
    let options = read_options(
        alloc,
        &[
            "order",
            "buildpacks",
            "app",
            "platform",
            "work",
            "layers",
            "store",
            "run",
            "launcher",
            "image",
            "previous",
            "workers",
        ],
        &["cache"],
        words,
    )?;
    create_values(alloc, &options)
}
