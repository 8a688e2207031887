// The options of `detect`.
ghost use Rattle.std.specs.Prelude.{◌≡◌, ◌≤◌, IfOk, IfSome, IsTrue, length, map, string_bytes};
ghost use Rattle.std.specs.Option.{option_and_then};
ghost use Rattle.cnb_words.specs.Choice as choice;
ghost use Rattle.cnb_words.specs.Faults.{AreReadAs};
ghost use Rattle.cnb_words.specs.Options.{options_in};
ghost use Rattle.cnb_words.specs.Detect.{detect_in, detect_values, KeepsLimits};
ghost use Rattle.cnb_words.specs.RecordPath.{is_record_path, record_of};

use crate::choice::{ChoiceWords, choice_values};
use crate::fault::WordsFault;
use crate::options::Options;
use crate::reading::read_options;
use crate::record_path::record_in;
use cnb_world::Path;
use std::alloc::Global;

/// What the words of `detect` ask for: a choice, and the file of its record, where one is to be written (platform.md,
/// "detector").
#[derive(Drop)]
pub struct DetectWords {
    pub choice: ChoiceWords,
    pub proof_path: Option<Path>,
}

// The file of the record, where one is asked for.
fn record_of(alloc: Global, options: &Options, work: &Path) -> Result<Option<Path>, WordsFault>
    requires work { length work.now ≤ 4096 }
    ensures reads { AreReadAs result (record_of work.now options.now) }
    ensures fits { IfOk result (λ found. IfSome found (λ path. IsTrue (is_record_path work.now path))) }
    ensures short { IfOk result (λ found. IfSome found (λ path. length path ≤ 4096)) }
{
    match options.value_of("record") {
        Some(text) => {
            let path = record_in(alloc, work, text)?;
            Ok(Some(path))
        }
        None => Ok(None),
    }
}

fn detect_values(alloc: Global, options: &Options) -> Result<DetectWords, WordsFault>
    ensures reads { AreReadAs result (detect_values options.now) }
    ensures limits { IfOk result KeepsLimits }
{
    let choice = choice_values(alloc, options)?;
    let proof_path = record_of(alloc, options, &choice.work)?;
    Ok(DetectWords { choice, proof_path })
}

/// What the words behind `detect` ask for.
pub(crate) fn detect_in(alloc: Global, words: &[String]) -> Result<DetectWords, WordsFault>
    ensures reads { AreReadAs result (option_and_then detect_in (options_in (map string_bytes words.now))) }
    ensures limits { IfOk result KeepsLimits }
{
    let options = read_options(
        alloc,
        &[
            "order",
            "buildpacks",
            "app",
            "platform",
            "work",
            "workers",
            "record",
        ],
        &[],
        words,
    )?;
    detect_values(alloc, &options)
}
