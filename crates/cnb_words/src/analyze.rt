// The options of `analyze`.
ghost use Rattle.std.specs.Prelude.{IfOk, map, string_bytes};
ghost use Rattle.std.specs.Option.{option_and_then};
ghost use Rattle.cnb_words.specs.Faults.{AreReadAs};
ghost use Rattle.cnb_words.specs.Options.{options_in};
ghost use Rattle.cnb_words.specs.Analyze.{analyze_in, analyze_values, KeepsLimits};

use crate::fault::WordsFault;
use crate::option_values::{image_of, optional_image_of, path_of};
use crate::options::Options;
use crate::reading::read_options;
use cnb_toml::ImageName;
use cnb_world::Path;
use std::alloc::Global;

/// What the words of `analyze` ask for (platform.md, "analyzer").
#[derive(Drop)]
pub struct AnalyzeWords {
    pub store: Path,
    pub run: ImageName,
    pub work: Path,
    pub previous: Option<ImageName>,
}

// What the options ask for, where each that must be given is.
fn analyze_values(alloc: Global, options: &Options) -> Result<AnalyzeWords, WordsFault>
    ensures reads { AreReadAs result (analyze_values options.now) }
    ensures limits { IfOk result KeepsLimits }
{
    let store = path_of(alloc, options, "store")?;
    let run = image_of(alloc, options, "run")?;
    let work = path_of(alloc, options, "work")?;
    let previous = optional_image_of(alloc, options, "previous")?;
    Ok(AnalyzeWords {
        store,
        run,
        work,
        previous,
    })
}

/// What the words behind `analyze` ask for.
pub(crate) fn analyze_in(alloc: Global, words: &[String]) -> Result<AnalyzeWords, WordsFault>
    ensures reads { AreReadAs result (option_and_then analyze_in (options_in (map string_bytes words.now))) }
    ensures limits { IfOk result KeepsLimits }
{
    let options = read_options(alloc, &["store", "run", "work", "previous"], &[], words)?;
    analyze_values(alloc, &options)
}
