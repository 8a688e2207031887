// Which slot a path falls to, by that of the folder that it stands in.
ghost use Rattle.std.specs.Prelude.{◌≡◌, ◌≤◌, length, IfOk, string_bytes};
ghost use Rattle.app_slices.specs.Cutting.{slot_at};
ghost use Rattle.app_slices.specs.Slots.{below, takes_path, first_taking, slot_in};

use crate::pattern::Pattern;
use cnb_world::{List, Memory};
use std::alloc::Global;

/// The path of a name in a folder, as seen from the application's own folder, whose path is empty.
pub(crate) fn below(alloc: Global, folder: &str, name: &str) -> Result<String, Memory>
    ensures { IfOk result (λ path. string_bytes path ≡ below folder.now name.now) }
{
    let mut path = String::from_str(alloc, folder)?;
    if !folder.is_empty() {
        path.push_str("/")?;
    }
    path.push_str(name)?;
    Ok(path)
}

fn takes_path(patterns: &[Pattern], path: &str) -> bool
    ensures { result ≡ takes_path patterns.now path.now }
{
    patterns.iter().any(|pattern| pattern.is_match(path))
}

/// The first slice of which a pattern matches this very path.
fn first_taking(slices: &[List<Pattern>], path: &str) -> Option<usize>
    ensures { result ≡ first_taking slices.now path.now }
{
    slices
        .iter()
        .position(|patterns| takes_path(patterns.as_slice(), path))
}

/// The slot of a path in a folder of the slot `above`. The rest's is the number of slices. Only slices before that slot
/// are tried.
#[tactic(auto, using(crate::proofs::SlotNumbers::number_in))]
pub(crate) fn slot_in(slices: &[List<Pattern>], above: usize, path: &str) -> usize
    requires { above ≤ length slices.now }
    ensures slot { slot_at slices.now result ≡ slot_in slices.now (slot_at slices.now above) path.now }
    ensures within { result ≤ length slices.now }
{
    first_taking(&slices[..above], path).unwrap_or(above)
}
