// The options of `check`.
ghost use Rattle.std.specs.Prelude.{IfOk, map, string_bytes};
ghost use Rattle.std.specs.Option.{option_and_then};
ghost use Rattle.cnb_words.specs.Faults.{AreReadAs};
ghost use Rattle.cnb_words.specs.Options.{options_in};
ghost use Rattle.cnb_words.specs.Check.{check_in, check_values, KeepsLimits};

use crate::fault::WordsFault;
use crate::option_values::path_of;
use crate::options::Options;
use crate::reading::read_options;
use cnb_world::Path;
use std::alloc::Global;

/// What the words of `check` ask for: a record, and what it is to be the record of.
#[derive(Drop)]
pub struct CheckWords {
    pub order: Path,
    pub buildpacks: Path,
    pub work: Path,
    pub proof_path: Path,
}

fn check_values(alloc: Global, options: &Options) -> Result<CheckWords, WordsFault>
    ensures reads { AreReadAs result (check_values options.now) }
    ensures limits { IfOk result KeepsLimits }
{
    let order = path_of(alloc, options, "order")?;
    let buildpacks = path_of(alloc, options, "buildpacks")?;
    let work = path_of(alloc, options, "work")?;
    let proof_path = path_of(alloc, options, "record")?;
    Ok(CheckWords {
        order,
        buildpacks,
        work,
        proof_path,
    })
}

/// What the words behind `check` ask for.
pub(crate) fn check_in(alloc: Global, words: &[String]) -> Result<CheckWords, WordsFault>
    ensures reads { AreReadAs result (option_and_then check_in (options_in (map string_bytes words.now))) }
    ensures limits { IfOk result KeepsLimits }
{
    let options = read_options(
        alloc,
        &["order", "buildpacks", "work", "record"],
        &[],
        words,
    )?;
    check_values(alloc, &options)
}
