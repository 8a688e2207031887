// One document.
ghost use Rattle.std.specs.Prelude.{◌≡◌, ◌≤◌, IfErr, IfOk, IfSome, length, unwrap_or, []};
ghost use Rattle.std.specs.Option.{option_map};
ghost use Rattle.cnb_world.specs.Calls.{MayMisuse};
ghost use Rattle.cnb_world.specs.Tree.{is_file_or_absent, item_at};
ghost use Rattle.steps.specs.Causes.{IsAnswer};
ghost use Rattle.steps.specs.Outside.{seen};
ghost use Rattle.steps.specs.Reading.{LeavesUnchanged};
ghost use Rattle.doc_files.specs.Faults.{read_cause};
ghost use Rattle.doc_files.specs.Reading.{BlamesOnly, document_at, file_at};

use crate::fault::{ReadFault, blamed};
use cnb_world::{Bytes, LONGEST_DOCUMENT, LimitKind, Path, Whole, World, read_whole};
use std::alloc::Global;

/// The bytes of the file at a path, where one is there, of at most so many bytes. What is neither a file nor absent can't be
/// read: `File`.
#[tactic(auto, using(crate::proofs::Blame::blamed_last))]
pub fn read_limited<W: World>(
    alloc: Global,
    world: &mut W,
    path: &Path,
    limit: u64,
    kind: LimitKind,
) -> Result<Option<Bytes>, ReadFault>
    ensures reads { IfSome (W.tree world.old) (λ files. IsAnswer read_cause result (file_at limit kind files path.now)) }
    ensures within { IfOk result (λ found. IfSome found (λ bytes. length bytes ≤ limit)) }
    ensures blames { IfErr result (BlamesOnly path.now) }
    ensures leaves { LeavesUnchanged read_cause result (seen W.World world.old) (seen W.World world.new) }
    ensures misused { MayMisuse (option_map (λ files. is_file_or_absent (item_at files path.now)) (W.tree world.old))
        (W.misused world.old) (W.misused world.new) }
{
    match read_whole(world, path, limit) {
        Ok(Whole::Absent) => Ok(None),
        Ok(Whole::Large(_)) => Err(ReadFault::Limit(kind)),
        Ok(Whole::Bytes(bytes)) => Ok(Some(bytes)),
        Err(fault) => Err(blamed(alloc, path, fault)),
    }
}

/// The bytes of the document at a path, where one is there. What is neither a file nor absent can't be read: `File`.
pub fn read_document<W: World>(
    alloc: Global,
    world: &mut W,
    path: &Path,
) -> Result<Option<Bytes>, ReadFault>
    ensures reads { IfSome (W.tree world.old) (λ files. IsAnswer read_cause result (document_at files path.now)) }
    ensures blames { IfErr result (BlamesOnly path.now) }
    ensures leaves { LeavesUnchanged read_cause result (seen W.World world.old) (seen W.World world.new) }
    ensures misused { MayMisuse (option_map (λ files. is_file_or_absent (item_at files path.now)) (W.tree world.old))
        (W.misused world.old) (W.misused world.new) }
{
    read_limited(
        alloc,
        world,
        path,
        LONGEST_DOCUMENT as u64,
        LimitKind::Document,
    )
}

/// The bytes of a document, of which there are none where it isn't there.
pub fn bytes_of(found: &Option<Bytes>) -> &[u8]
    ensures { result.now ≡ unwrap_or found.now [] }
{
    match found {
        Some(bytes) => bytes.as_slice(),
        None => &[],
    }
}
