// The patterns of slices.
ghost use Rattle.steps.specs.Outside.{Seen};
ghost use Rattle.cnb_layers.specs.Patterns.{IsRead, reads_patterns, reads_slices};

use crate::fault::ExportFault;
use app_slices::{Pattern, PatternFault};
use cnb_toml::BpId;
use cnb_world::{List, Text};
use std::alloc::Global;
use tree_store::StoreFault;

fn parse(alloc: Global, id: &BpId, text: &Text) -> Result<Pattern, ExportFault>
    ensures { IsRead id.now text.now result }
{
    match Pattern::parse(alloc, text.as_str()) {
        Ok(pattern) => Ok(pattern),
        Err(PatternFault::Bad) => Err(ExportFault::BadPattern(id.copy(alloc)?, text.copy(alloc)?)),
        Err(PatternFault::Memory) => Err(ExportFault::Store(StoreFault::Memory)),
    }
}

fn parse_all(alloc: Global, id: &BpId, texts: &[Text]) -> Result<List<Pattern>, ExportFault>
    ensures step { (outside : Seen) → reads_patterns id.now texts.now outside result outside }
{
    let mut patterns = List::new(alloc);
    for text in texts {
        let pattern = parse(alloc, id, text)?;
        patterns.push(pattern)?;
    }
    Ok(patterns)
}

/// The patterns of a buildpack's slices, each slice a list of its own. The first text that is no pattern is refused.
pub(crate) fn parse_slices(
    alloc: Global,
    id: &BpId,
    slices: &[List<Text>],
) -> Result<List<List<Pattern>>, ExportFault>
    ensures step { (outside : Seen) → reads_slices id.now slices.now outside result outside }
{
    let mut all = List::new(alloc);
    for texts in slices {
        let patterns = parse_all(alloc, id, texts.as_slice())?;
        all.push(patterns)?;
    }
    Ok(all)
}
