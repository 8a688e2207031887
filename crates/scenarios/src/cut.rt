// Runs over a tree's file that is cut off.
use crate::came::Came;
use crate::chain::Chain;
use crate::comparison::Comparison;
use crate::items::push_file;
use crate::sides::tell;
use crate::standing::Standing;
use crate::trees::{Tree, put_digits};
use cnb_world::{List, Placed};
use row_files::Answer;
use sha2::{Digest, Sha256};

impl<'a> Chain<'a> {
    // The path that the row names of a tree's file of which each beginning is tried.
    fn cut_path(&self) -> &'a str {
        match self.scenarios.as_slice().first() {
            Some(row) => row.text_or_empty("every-prefix"),
            None => "",
        }
    }

    // The tree whose file is there.
    fn cut_tree(&self, answer: &mut Answer) -> Option<&'a Tree> {
        let trees = self.trees;
        for tree in trees.all.as_slice() {
            if tree.is_stored_at(self.cut_path()) {
                return Some(tree);
            }
        }
        answer.wrong("no tree's file:", self.cut_path());
        None
    }

    /// How many beginnings of the file are to be tried: none where the row names none.
    pub fn cuts(&self, answer: &mut Answer) -> usize {
        if self.cut_path().is_empty() {
            return 0;
        }
        match self.cut_tree(answer) {
            Some(tree) => tree.spelling.as_slice().len(),
            None => 0,
        }
    }

    /// Adds so many bytes of the file in its place.
    pub(crate) fn push_cut(&self, answer: &mut Answer, items: &mut List<Placed>, length: usize) {
        if let Some(tree) = self.cut_tree(answer) {
            push_file(answer, items, self.cut_path(), beginning(tree, length));
        }
    }
}

impl Comparison<'_> {
    /// Compares a run in which the file had so many bytes: it says that the tree is damaged, with the digest that these
    /// have, and all files are as before.
    pub fn judge_damaged(&self, answer: &mut Answer, came: &mut Came, length: usize) {
        let mut wanted = Answer::new(answer.alloc);
        if let Some(tree) = self.chain.cut_tree(answer) {
            put_damage(&mut wanted, tree, length);
        }
        let wanted = answer.taken(wanted);
        if came.status != 30 || came.printed.as_str() != wanted.as_str() {
            tell(answer, "with a cut file", &wanted, &came.printed);
        }
        let after = Standing::of(answer, &mut came.world);
        let changed = self.before.changed(answer, &after);
        for path in changed.as_slice() {
            if *path != self.chain.cut_path() {
                tell(answer, path, "as before", after.kind(path));
            }
        }
    }
}

fn beginning(tree: &Tree, length: usize) -> &[u8] {
    let whole = tree.spelling.as_slice();
    whole.get(..length).unwrap_or(whole)
}

fn put_damage(line: &mut Answer, tree: &Tree, length: usize) {
    line.put_all(&["error 30 Damaged ", &tree.digits, " "]);
    put_digits(line, &Sha256::digest(beginning(tree, length)));
    line.put("\n");
}
