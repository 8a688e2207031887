// Where the record of a detection may be written.
ghost use Rattle.std.specs.Prelude.{◌≡◌, ◌≤◌, IfOk, IsTrue, length};
ghost use Rattle.std.specs.Str.{bytes_eq};
ghost use Rattle.cnb_world.specs.Path.{beside, is_part, is_path, joined};
ghost use Rattle.cnb_words.specs.Faults.{AreReadAs};
ghost use Rattle.cnb_words.specs.RecordPath.{has_room_beside, is_of_choice, is_record_path, record_in};

use crate::fault::WordsFault;
use crate::values::path_in;
use cnb_world::{Memory, Path};
use std::alloc::Global;

// Whether the file that is first written in its place has a path too.
fn has_room_beside(alloc: Global, path: &Path) -> Result<bool, Memory>
    ensures { IfOk result (λ has. has ≡ has_room_beside path.now) }
{
    let mut beside = String::from_str(alloc, path.as_str())?;
    beside.push_str(".new")?;
    Ok(path.as_str() != "/" && Path::is_path(beside.as_str()))
}

// Whether the path is that of a name in a folder.
fn is_named(alloc: Global, folder: &Path, name: &str, path: &Path) -> Result<bool, Memory>
    requires part { IsTrue (is_part name.now) }
    requires short { length folder.now ≤ 4096 }
    ensures { IfOk result (λ is. is ≡ bytes_eq path.now (joined folder.now name.now)) }
{
    let named = folder.below(alloc, name)?;
    Ok(path.as_str() == named.as_str())
}

// Whether the path is that of a document of the choice, or of the file that is first written in its place.
fn is_of_choice(alloc: Global, work: &Path, path: &Path) -> Result<bool, Memory>
    requires short { length work.now ≤ 4096 }
    ensures { IfOk result (λ is. is ≡ is_of_choice work.now path.now) }
{
    Ok(
        is_named(alloc, work, "group.toml", path)?
            || is_named(alloc, work, "group.toml.new", path)?
            || is_named(alloc, work, "plan.toml", path)?
            || is_named(alloc, work, "plan.toml.new", path)?,
    )
}

fn is_record_path(alloc: Global, work: &Path, path: &Path) -> Result<bool, Memory>
    requires short { length work.now ≤ 4096 }
    ensures { IfOk result (λ may. may ≡ is_record_path work.now path.now) }
{
    Ok(has_room_beside(alloc, path)? && !is_of_choice(alloc, work, path)?)
}

/// The path that a text is, where a record may be written at it.
pub(crate) fn record_in(alloc: Global, work: &Path, text: &str) -> Result<Path, WordsFault>
    requires short { length work.now ≤ 4096 }
    ensures reads { AreReadAs result (record_in work.now text.now) }
    ensures fits { IfOk result (λ path. IsTrue (is_record_path work.now path)) }
    ensures short { IfOk result (λ path. length path ≤ 4096) }
{
    let path = path_in(alloc, text)?;
    if is_record_path(alloc, work, &path)? {
        Ok(path)
    } else {
        Err(WordsFault::Usage)
    }
}
