// The target of the run image that was analyzed.
ghost use Rattle.std.specs.Prelude.{◌≡◌, ◌≤◌, ◌&&◌, IfErr, IfOk, IfSome, IsTrue, length};
ghost use Rattle.std.specs.Option.{option_map};
ghost use Rattle.cnb_toml.specs.Names.{is_target_name};
ghost use Rattle.cnb_world.specs.Calls.{MayMisuse};
ghost use Rattle.steps.specs.Causes.{IsAnswer};
ghost use Rattle.steps.specs.Outside.{seen};
ghost use Rattle.steps.specs.Reading.{LeavesUnchanged};
ghost use Rattle.doc_files.specs.Faults.{read_cause};
ghost use Rattle.doc_files.specs.Reading.{BlamesOnly};
ghost use Rattle.image_files.specs.Target.{analyzed_document, is_fit_target, target_at, target_of};

use crate::documents::find_document;
use cnb_toml::Target;
use cnb_world::{Memory, Path, World};
use doc_files::ReadFault;
use image_docs::Analyzed;
use std::alloc::Global;

#[tactic(auto, using(cnb_world::proofs::Lengths::length_joined))]
fn analyzed_document(alloc: Global, work: &Path) -> Result<Path, Memory>
    requires { length work.now ≤ 4096 }
    ensures { IfOk result (λ path. path ≡ analyzed_document work.now) }
{
    let path = work.below(alloc, "analyzed.toml")?;
    Ok(path)
}

fn target_of(found: Option<Analyzed>) -> Option<Target>
    ensures { result ≡ option_map target_of found }
{
    match found {
        Some(analyzed) => Some(Target {
            os: analyzed.os,
            arch: analyzed.arch,
        }),
        None => None,
    }
}

/// The operating system and the architecture that `<work>/analyzed.toml` says (platform.md, "analyzed.toml (TOML)").
/// There is no target where that document isn't there.
pub fn read_target<W: World>(
    alloc: Global,
    world: &mut W,
    work: &Path,
) -> Result<Option<Target>, ReadFault>
    requires { length work.now ≤ 4096 }
    ensures reads { IfSome (W.tree world.old) (λ files. IsAnswer read_cause result (target_at work.now files)) }
    ensures blames { IfErr result (BlamesOnly (analyzed_document work.now)) }
    ensures leaves { LeavesUnchanged read_cause result (seen W.World world.old) (seen W.World world.new) }
    ensures misused { MayMisuse (option_map (is_fit_target work.now) (W.tree world.old))
        (W.misused world.old) (W.misused world.new) }
    ensures named { IfOk result (λ target. IfSome target
        (λ found. IsTrue (is_target_name found.os && is_target_name found.arch))) }
{
    let path = analyzed_document(alloc, work)?;
    let found = find_document::<W, Analyzed>(alloc, world, &path)?;
    Ok(target_of(found))
}
