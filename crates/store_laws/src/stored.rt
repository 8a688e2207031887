// What an export leaves in the store.
ghost use Rattle.store_laws.specs.Stored.{ExportsStored};

/// An export that is done leaves a file under the digest of each row above the run image. It spells a tree of that
/// digest, unless the row is a layer that was taken over with the file that was there before. All else that was in the
/// store is as it was: so a store that was sound is sound, and has a tree for each of those rows.
pub fn exported_trees_are_stored()
    ensures stores { ExportsStored }
{}
