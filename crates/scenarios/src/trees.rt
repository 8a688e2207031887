// The trees that rows name.
use crate::items::push_folder;
use crate::spelling::put_spelling;
use crate::standing::Standing;
use cnb_world::{Bytes, List};
use row_files::{Answer, Fields};
use sha2::{Digest, Sha256};
use std::alloc::Global;
use toml::Value;

/// The folder of the store's trees, in which each has its digits as its name.
const STORE: &str = "/store/trees/";

/// A tree with its spelling and its digest.
#[derive(Drop)]
pub struct Tree {
    row: Value,
    pub spelling: Bytes,
    pub digest: [u8; 32],
    pub digits: String,
}

impl Tree {
    fn of(answer: &mut Answer, value: &Value) -> Option<Tree> {
        let Ok(row) = value.clone() else {
            answer.run_out();
            return None;
        };
        let spelling = spelling_of(answer, Fields { value });
        let digest = Sha256::digest(spelling.as_slice());
        let mut digits = Answer::new(answer.alloc);
        put_digits(&mut digits, &digest);
        let digits = answer.taken(digits);
        Some(Tree {
            row,
            spelling,
            digest,
            digits,
        })
    }

    pub(crate) fn name(&self) -> &str {
        (Fields { value: &self.row }).text_or_empty("name")
    }

    /// What the tree has, at paths from its root.
    pub(crate) fn files(&self) -> &[Value] {
        (Fields { value: &self.row }).list("files")
    }

    /// The path of the tree in the store.
    pub(crate) fn stored_path(&self, answer: &mut Answer) -> String {
        answer.joined(&[STORE, &self.digits])
    }

    /// Whether a path is that of the tree in the store.
    pub(crate) fn is_stored_at(&self, path: &str) -> bool {
        path.strip_prefix(STORE) == Some(self.digits.as_str())
    }
}

/// Adds the digits of a digest.
pub(crate) fn put_digits(text: &mut Answer, digest: &[u8; 32]) {
    match hex::encode(text.alloc, digest) {
        Ok(digits) => text.put(&digits),
        Err(_) => text.run_out(),
    }
}

fn spelling_of(answer: &mut Answer, row: Fields) -> Bytes {
    let mut items = List::new(answer.alloc);
    push_folder(answer, &mut items, "/t", row.list("files"));
    let mut spelling = answer.bytes(b"");
    if let Some(standing) = Standing::of_items(answer, items) {
        put_spelling(answer, &mut spelling, &standing, "/t");
    }
    spelling
}

/// The trees that rows name.
#[derive(Drop)]
pub struct Trees {
    pub all: List<Tree>,
}

impl Trees {
    pub(crate) fn none(alloc: Global) -> Trees {
        Trees {
            all: List::new(alloc),
        }
    }

    /// Adds those of a file.
    pub(crate) fn add(&mut self, answer: &mut Answer, file: Fields) {
        for value in file.list("tree") {
            if let Some(tree) = Tree::of(answer, value) {
                answer.done(self.all.push(tree));
            }
        }
    }

    /// The tree of a name, where there is one.
    pub(crate) fn find(&self, name: &str) -> Option<&Tree> {
        for tree in self.all.as_slice() {
            if tree.name() == name {
                return Some(tree);
            }
        }
        None
    }

    /// The tree of a name.
    pub(crate) fn named(&self, answer: &mut Answer, name: &str) -> Option<&Tree> {
        let found = self.find(name);
        if found.is_none() {
            answer.wrong("no such tree:", name);
        }
        found
    }

    /// Adds a text with the digits of the tree's digest in place of each `{NAME}`.
    pub(crate) fn put_filled(&self, filled: &mut Answer, text: &str) {
        let mut front = "";
        for piece in text.split('{') {
            self.put_piece(filled, front, piece);
            front = "{";
        }
    }

    // Adds what stands behind a brace, or in front of the first one.
    fn put_piece(&self, filled: &mut Answer, front: &str, piece: &str) {
        if let Some((name, rest)) = piece.split_once('}') {
            if let Some(tree) = self.find(name) {
                filled.put_all(&[&tree.digits, rest]);
                return;
            }
        }
        filled.put_all(&[front, piece]);
    }
}
