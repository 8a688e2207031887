// What the words of this crate's contracts come to.
ghost use Rattle.tree_store.specs.Matching.{ReadTreesMatch};

/// The tree that is read of a folder, as `read_tree` and `put_folder` read it, is what the files hold: at each path of
/// the folder its very item, and nothing else at the folder or below it.
pub fn read_trees_match()
    ensures paths { ReadTreesMatch }
{}
