// The command `analyze`.
ghost use Rattle.std.specs.Prelude.{◌≤◌, IfOk, length};
ghost use Rattle.cnb_words.specs.Analyze.{KeepsLimits};
ghost use Rattle.steps.specs.Outside.{seen};
ghost use Rattle.steps.specs.Steps.{writes};
ghost use Rattle.cnb_restore.specs.Commands.{ReadsAsAnalyzed, analyzes_command};
ghost use Rattle.cnb_restore.specs.Faults.{cause_of};
ghost use Rattle.image_files.specs.Target.{analyzed_document};

use crate::analysis::analyze;
use crate::fault::RestoreFault;
use crate::report::analyzed_text;
use cnb_words::AnalyzeWords;
use cnb_world::{Bytes, Memory, Path, Text, World};
use doc_files::write_document;
use image_docs::{Analyzed, write_analyzed};
use std::alloc::Global;

fn analyzed_bytes(alloc: Global, analyzed: &Analyzed) -> Result<Bytes, Memory>
    ensures { IfOk result (ReadsAsAnalyzed analyzed.now) }
{
    write_analyzed(alloc, analyzed)
}

/// Writes `analyzed.toml` (platform.md, "analyzed.toml (TOML)").
pub fn write_analyzed_document<W: World>(
    alloc: Global,
    world: &mut W,
    work: &Path,
    analyzed: &Analyzed,
) -> Result<(), RestoreFault>
    requires { length work.now ≤ 4096 }
    ensures step { writes cause_of (analyzed_document work.now) (ReadsAsAnalyzed analyzed.now)
        (seen W.World world.old) result (seen W.World world.new) }
{
    let bytes = analyzed_bytes(alloc, analyzed)?;
    write_document::<W, RestoreFault>(alloc, world, work, "analyzed.toml", bytes.as_slice())?;
    Ok(())
}

/// Looks at the images that the words name, writes `analyzed.toml`, and gives the text to be printed (platform.md,
/// "analyzer").
pub fn analyze_command<W: World>(
    alloc: Global,
    options: &AnalyzeWords,
    world: &mut W,
) -> Result<Text, RestoreFault>
    requires { KeepsLimits options.now }
    ensures steps { analyzes_command options.now (seen W.World world.old) result (seen W.World world.new) }
{
    let analyzed = analyze(
        alloc,
        world,
        &options.store,
        &options.run,
        options.previous.as_ref(),
    )?;
    let text = analyzed_text(alloc, &analyzed)?;
    write_analyzed_document(alloc, world, &options.work, &analyzed)?;
    Ok(text)
}
