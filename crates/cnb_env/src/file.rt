// One environment file.
ghost use Rattle.std.specs.Prelude.{◌≡◌, ◌≤◌, ◌==◌, IfErr, IfSome, IsTrue, Ok, length, ℕ};
ghost use Rattle.std.specs.List.{list_any};
ghost use Rattle.cnb_world.specs.Path.{is_part, joined};
ghost use Rattle.cnb_world.specs.Tree.{item_at};
ghost use Rattle.steps.specs.Causes.{CountsFiles, IsAnswer};
ghost use Rattle.steps.specs.Outside.{seen};
ghost use Rattle.steps.specs.Reading.{LeavesUnchanged};
ghost use Rattle.doc_files.specs.Faults.{read_cause};
ghost use Rattle.doc_files.specs.Reading.{BlamesOnly};
ghost use Rattle.cnb_env.specs.Contents.{contents_of, file_at, file_of, value_in};

use crate::files::EnvFile;
use crate::names::{Naming, is_ignored};
use cnb_toml::DocFault;
use cnb_world::{Bytes, Kind, LONGEST_DOCUMENT, LimitKind, Path, Text, World};
use doc_files::{ReadFault, blamed};
use std::alloc::Global;

/// The longest environment file, in bytes.
const LONGEST_FILE: u64 = LONGEST_DOCUMENT as u64;

/// The bytes of the regular file at a path, where one stands there.
#[tactic(auto, using(doc_files::proofs::Blame::blamed_last))]
pub fn contents<W: World>(
    alloc: Global,
    world: &mut W,
    path: &Path,
) -> Result<Option<Bytes>, ReadFault>
    ensures reads { IfSome (W.tree world.old) (λ files.
        IsAnswer read_cause result (contents_of (item_at files path.now))) }
    ensures blames { IfErr result (BlamesOnly path.now) }
    ensures leaves { LeavesUnchanged read_cause result (seen W.World world.old) (seen W.World world.new) }
    ensures misused { W.misused world.new ≡ W.misused world.old }
{
    match world.kind(path) {
        Ok(Kind::File { len, .. }) if len > LONGEST_FILE => Err(ReadFault::Limit(
            LimitKind::Document,
        )),
        Ok(Kind::File { .. }) => match world.read(path, 0, LONGEST_FILE) {
            Ok(bytes) => Ok(Some(bytes)),
            Err(fault) => Err(blamed(alloc, path, fault)),
        },
        Ok(_) => Ok(None),
        Err(fault) => Err(blamed(alloc, path, fault)),
    }
}

fn has_zero(bytes: &[u8]) -> bool
    ensures { result ≡ list_any (λ byte. byte == 0) bytes.now }
{
    bytes.iter().any(|byte| *byte == 0)
}

// The value that a file's bytes are.
#[tactic(auto, using(crate::proofs::Texts::is_text, crate::proofs::Texts::is_no_text))]
fn value_in(alloc: Global, path: &Path, bytes: &[u8]) -> Result<Text, ReadFault>
    ensures reads { IsAnswer read_cause result (value_in path.now bytes.now) }
    ensures blames { IfErr result (BlamesOnly path.now) }
    ensures files { (n : ℕ) → CountsFiles read_cause result n n }
{
    match std::str::from_utf8(bytes) {
        Err(_) => Err(ReadFault::Document(path.copy(alloc)?, DocFault::NotUtf8)),
        Ok(_) if has_zero(bytes) => Err(ReadFault::Document(
            path.copy(alloc)?,
            DocFault::Wrong(Text::of(alloc, "value")?),
        )),
        Ok(text) => Ok(Text::of(alloc, text)?),
    }
}

// The environment file of a name, from the bytes of the regular file there.
fn file_of(
    alloc: Global,
    path: &Path,
    name: &Text,
    found: Option<Bytes>,
) -> Result<Option<EnvFile>, ReadFault>
    ensures reads { IsAnswer read_cause result (file_of name.now path.now (Ok found)) }
    ensures blames { IfErr result (BlamesOnly path.now) }
    ensures files { (n : ℕ) → CountsFiles read_cause result n n }
{
    match found {
        Some(bytes) => {
            let value = value_in(alloc, path, bytes.as_slice())?;
            let name = name.copy(alloc)?;
            Ok(Some(EnvFile { name, value }))
        }
        None => Ok(None),
    }
}

/// The environment file of a name in the folder.
#[tactic(auto, using(crate::proofs::FileLemmas::file_fits, doc_files::proofs::Counts::counts_after))]
pub(crate) fn read_file<W: World>(
    alloc: Global,
    world: &mut W,
    folder: &Path,
    name: &Text,
    naming: Naming,
) -> Result<Option<EnvFile>, ReadFault>
    requires part { IsTrue (is_part name.now) }
    requires short { length folder.now ≤ 16384 }
    ensures reads { IfSome (W.tree world.old) (λ files.
        IsAnswer read_cause result (file_at naming files folder.now name.now)) }
    ensures blames { IfErr result (BlamesOnly (joined folder.now name.now)) }
    ensures leaves { LeavesUnchanged read_cause result (seen W.World world.old) (seen W.World world.new) }
    ensures misused { W.misused world.new ≡ W.misused world.old }
{
    if is_ignored(naming, name.as_str()) {
        return Ok(None);
    }
    let path = folder.below(alloc, name.as_str())?;
    let found = contents(alloc, world, &path)?;
    Ok(file_of(alloc, &path, name, found)?)
}
