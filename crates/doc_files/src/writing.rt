// Documents that are written.
ghost use Rattle.std.specs.Prelude.{◌≡◌, ◌≤◌, ◌<◌, IfErr, IfSome, IsTrue, OnErr, OnOk, length};
ghost use Rattle.std.specs.Option.{option_map};
ghost use Rattle.cnb_world.specs.Calls.{MayMisuse};
ghost use Rattle.cnb_world.specs.Path.{beside, is_part, joined};
ghost use Rattle.cnb_world.specs.Whole.{LeavesPart, can_write, written};
ghost use Rattle.steps.specs.Causes.{CountsFiles, FileFailed, IsWriteCause, OutOfMemory};

use cnb_world::{FileFault, Path, World, write_whole};
use std::alloc::Global;

/// A refusal that can come of a call on files.
pub trait FileRefusal {
    ghost use Rattle.steps.specs.Causes.{Cause};

    /// Why a call is refused.
    ghost cause: { Self → Cause };

    /// A call on this path failed.
    fn file(path: Path) -> Self
        ensures { cause result ≡ FileFailed path };

    /// Memory ran out.
    fn memory() -> Self
        ensures { cause result ≡ OutOfMemory };
}

/// Writes a document of a folder, whole: where that is refused, the old one stands.
pub fn write_document<W: World, R: FileRefusal>(
    alloc: Global,
    world: &mut W,
    folder: &Path,
    name: &str,
    bytes: &[u8],
) -> Result<(), R>
    requires part { IsTrue (is_part name.now) }
    requires beside { IsTrue (is_part (beside name.now)) }
    requires long { 1 < length name.now }
    requires short_name { length name.now ≤ 205 }
    requires short { length folder.now ≤ 4352 }
    ensures ok { OnOk result
        (W.tree world.new ≡ option_map (written (joined folder.now name.now) bytes.now) (W.tree world.old)) }
    ensures fit { OnOk result
        (IfSome (W.tree world.old) (λ files. IsTrue (can_write (joined folder.now name.now) files))) }
    ensures err { OnErr result
        (LeavesPart (W.tree world.old) (W.tree world.new) (joined folder.now name.now) bytes.now) }
    ensures cause { IfErr result (λ refusal. IsWriteCause (joined folder.now name.now) (R.cause refusal)) }
    ensures files { CountsFiles R.cause result (W.file_faults world.old) (W.file_faults world.new) }
    ensures children { W.child_faults world.new ≡ W.child_faults world.old }
    ensures runs { W.runs world.new ≡ W.runs world.old }
    ensures misused { MayMisuse (option_map (can_write (joined folder.now name.now)) (W.tree world.old))
        (W.misused world.old) (W.misused world.new) }
{
    // The proof takes from this call what each path keeps to.
    let _folder = folder.as_str();
    let Ok(path) = folder.below(alloc, name) else {
        return Err(R::memory());
    };
    match write_whole(alloc, world, &path, bytes) {
        Ok(()) => Ok(()),
        Err(FileFault::Failed) => Err(R::file(path)),
        Err(FileFault::Memory) => Err(R::memory()),
    }
}
