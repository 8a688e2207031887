// The values that options are given.
ghost use Rattle.std.specs.Prelude.{◌≡◌, ◌<◌, ◌≤◌, ◌^◌, All, IfOk, IsTrue, length, map};
ghost use Rattle.cnb_toml.specs.Names.{is_target_name};
ghost use Rattle.cnb_words.specs.Faults.{AreReadAs};
ghost use Rattle.cnb_words.specs.OptionValues.{caches_of, image_of, optional_image_of, path_of, paths_of, target_of};
ghost use Rattle.cnb_words.specs.OptionValues.{trees_of, workers_of};
ghost use Rattle.cnb_words.specs.Reading.{dashed, paths_in};

use crate::fault::WordsFault;
use crate::options::Options;
use crate::values::{image_in, number_in, path_in, target_in};
use cnb_toml::ImageName;
use cnb_world::{List, Path, Text};
use std::alloc::Global;

const END_OF_CACHES: usize = 4_294_967_296;

const MOST_WORKERS: u32 = 64;

/// The path of an option that must be given.
pub(crate) fn path_of(alloc: Global, options: &Options, name: &str) -> Result<Path, WordsFault>
    ensures reads { AreReadAs result (path_of (dashed name.now) options.now) }
    ensures short { IfOk result (λ path. length path ≤ 4096) }
{
    match options.value_of(name) {
        Some(value) => path_in(alloc, value),
        None => Err(WordsFault::Usage),
    }
}

/// The image's name of an option that must be given.
pub(crate) fn image_of(
    alloc: Global,
    options: &Options,
    name: &str,
) -> Result<ImageName, WordsFault>
    ensures { AreReadAs result (image_of (dashed name.now) options.now) }
{
    match options.value_of(name) {
        Some(value) => image_in(alloc, value),
        None => Err(WordsFault::Usage),
    }
}

/// The image's name of an option, where it is given.
pub(crate) fn optional_image_of(
    alloc: Global,
    options: &Options,
    name: &str,
) -> Result<Option<ImageName>, WordsFault>
    ensures { AreReadAs result (optional_image_of (dashed name.now) options.now) }
{
    match options.value_of(name) {
        Some(value) => {
            let name = image_in(alloc, value)?;
            Ok(Some(name))
        }
        None => Ok(None),
    }
}

/// The name of an operating system or an architecture of an option that must be given.
pub(crate) fn target_of(alloc: Global, options: &Options, name: &str) -> Result<Text, WordsFault>
    ensures reads { AreReadAs result (target_of (dashed name.now) options.now) }
    ensures is_name { IfOk result (λ target. IsTrue (is_target_name target)) }
{
    match options.value_of(name) {
        Some(value) => target_in(alloc, value),
        None => Err(WordsFault::Usage),
    }
}

/// The number of workers; 8 where it isn't given.
pub(crate) fn workers_of(options: &Options) -> Result<usize, WordsFault>
    ensures reads { AreReadAs result (workers_of options.now) }
    ensures some { IfOk result (λ workers. 1 ≤ workers) }
    ensures few { IfOk result (λ workers. workers ≤ 64) }
{
    match options.value_of("workers") {
        Some(text) => {
            let workers = number_in(text, 1, MOST_WORKERS)?;
            Ok(workers as usize)
        }
        None => Ok(8),
    }
}

// The paths that texts are.
fn paths_in(alloc: Global, texts: &[&str]) -> Result<List<Path>, WordsFault>
    ensures reads { AreReadAs result (paths_in (map (λ text. text.now) texts.now)) }
    ensures short { IfOk result (All (λ path. length path ≤ 4096)) }
{
    let mut paths = List::new(alloc);
    for text in texts {
        let path = path_in(alloc, text)?;
        paths.push(path)?;
    }
    Ok(paths)
}

// The paths of an option that may stand several times, in the order of the words.
fn paths_of(alloc: Global, options: &Options, name: &str) -> Result<List<Path>, WordsFault>
    ensures reads { AreReadAs result (paths_of (dashed name.now) options.now) }
    ensures short { IfOk result (All (λ path. length path ≤ 4096)) }
{
    match options.values_of(name) {
        Some(values) => paths_in(alloc, values),
        None => Ok(List::new(alloc)),
    }
}

/// The folders of the caches: fewer than 4,294,967,296.
pub(crate) fn caches_of(alloc: Global, options: &Options) -> Result<List<Path>, WordsFault>
    ensures reads { AreReadAs result (caches_of options.now) }
    ensures short { IfOk result (All (λ path. length path ≤ 4096)) }
    ensures few { IfOk result (λ caches. length caches < 2 ^ 32) }
{
    let caches = paths_of(alloc, options, "cache")?;
    if caches.as_slice().len() < END_OF_CACHES {
        Ok(caches)
    } else {
        Err(WordsFault::Usage)
    }
}

/// The folders of trees: at least one.
pub(crate) fn trees_of(alloc: Global, options: &Options) -> Result<List<Path>, WordsFault>
    ensures reads { AreReadAs result (trees_of options.now) }
    ensures short { IfOk result (All (λ path. length path ≤ 4096)) }
    ensures some { IfOk result (λ trees. 1 ≤ length trees) }
{
    let trees = paths_of(alloc, options, "tree")?;
    if trees.as_slice().is_empty() {
        Err(WordsFault::Usage)
    } else {
        Ok(trees)
    }
}
