// The entries of each slot, of which only those that have some are held.
ghost use Rattle.std.specs.Prelude.{◌≡◌, ℕ, IfOk, OnOk};
ghost use Rattle.app_slices.specs.Cutting.{Adds, entries_at, folders_at, one_at, only_own};
ghost use Rattle.app_slices.specs.Slices.{named};

use cnb_world::{List, Memory, Text};
use std::alloc::Global;
use std::collections::BTreeMap;
use tree_canon::{Named, Node};

/// The entries of each slot, by its number.
pub(crate) type Parts = BTreeMap<usize, List<Named>>;

/// A folder's own slot, with no entry so far.
pub(crate) fn with_own(alloc: Global, own: usize) -> Result<Parts, Memory>
    ensures { IfOk result (λ parts. (k : ℕ) → entries_at parts k ≡ only_own own k) }
{
    let mut parts = BTreeMap::new(alloc);
    parts.insert(own, List::new(alloc))?;
    Ok(parts)
}

/// Adds an entry to a slot.
pub(crate) fn add(alloc: Global, parts: &mut Parts, slot: usize, entry: Named) -> Result<(), Memory>
    ensures { OnOk result (Adds (one_at slot entry) parts.old parts.new) }
{
    parts.entry(slot)?.or_insert(List::new(alloc)).push(entry)
}

/// An entry of this name.
pub(crate) fn named(alloc: Global, name: &Text, node: Node) -> Result<Named, Memory>
    ensures { IfOk result (λ entry. entry ≡ named name.now node) }
{
    Ok(Named {
        name: name.copy(alloc)?,
        node,
    })
}

/// Adds to each slot a folder with the entries that it has of that folder.
#[tactic(auto, using(crate::proofs::CutSlots::folders_added))]
pub(crate) fn add_folders(
    alloc: Global,
    parts: &mut Parts,
    name: &Text,
    of_folder: Parts,
) -> Result<(), Memory>
    ensures { OnOk result (Adds (folders_at name.now of_folder) parts.old parts.new) }
{
    let mut left = of_folder;
    while let Some((slot, entries)) = left.pop_first() {
        add(
            alloc,
            parts,
            slot,
            named(alloc, name, Node::Folder(entries))?,
        )?;
    }
    Ok(())
}
