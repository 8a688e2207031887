// What stands after a run beside what is wanted.
use crate::comparison::Comparison;
use crate::items::push_folder;
use crate::sides::{Sides, compare, tell};
use crate::standing::{Standing, is_in};
use crate::taking::table;
use crate::trees::Tree;
use cnb_world::List;
use row_files::{Answer, text_of};
use std::alloc::Global;
use toml::Value;

impl Comparison<'_> {
    /// Compares all that stands.
    pub(crate) fn compare_standing(&self, answer: &mut Answer, after: &Standing) {
        self.compare_documents(answer, after);
        self.compare_files(answer, after);
        self.compare_laid(answer, after);
        self.compare_stored(answer, after);
        let changed = self.before.changed(answer, after);
        for path in changed.as_slice() {
            if !self.is_named(path) {
                tell(answer, path, "as before", after.kind(path));
            }
        }
    }

    fn compare_documents(&self, answer: &mut Answer, after: &Standing) {
        if let Some(documents) = table(self.want, "documents") {
            for (path, wanted) in documents {
                let mut text = Answer::new(answer.alloc);
                after.put_text(&mut text, path);
                let text = answer.taken(text);
                compare_document(answer, path, Some(wanted), &text);
            }
        }
    }

    fn compare_files(&self, answer: &mut Answer, after: &Standing) {
        if let Some(files) = table(self.want, "files") {
            for (path, wanted) in files {
                let mut sides = Sides::new(answer.alloc);
                sides.wanted.put(text_of(wanted));
                after.put_text(&mut sides.came, path);
                sides.compare(answer, path);
            }
        }
        if let Some(kinds) = table(self.want, "kinds") {
            for (path, wanted) in kinds {
                compare(answer, path, text_of(wanted), after.kind(path));
            }
        }
    }

    // The trees that are to stand at paths, whole and with nothing besides.
    fn compare_laid(&self, answer: &mut Answer, after: &Standing) {
        if let Some(laid) = table(self.want, "laid") {
            for (place, name) in laid {
                self.compare_tree(answer, after, place, text_of(name));
            }
        }
    }

    fn compare_tree(&self, answer: &mut Answer, after: &Standing, place: &str, name: &str) {
        if let Some(tree) = self.chain.trees.named(answer, name) {
            if !is_laid(answer, tree, place, after) {
                tell(answer, place, name, "another tree");
            }
        }
    }

    fn compare_stored(&self, answer: &mut Answer, after: &Standing) {
        for name in self.want.text_or_empty("stored").split_whitespace() {
            if let Some(tree) = self.chain.trees.named(answer, name) {
                let path = tree.stored_path(answer);
                if after.file(&path) != Some(tree.spelling.as_slice()) {
                    tell(answer, &path, name, after.kind(&path));
                }
            }
        }
    }

    // Whether the row says what stands at a path.
    fn is_named(&self, path: &str) -> bool {
        self.is_key(path) || self.is_laid_at(path) || self.is_stored_at(path)
    }

    fn is_key(&self, path: &str) -> bool {
        for key in ["documents", "files", "kinds"] {
            if let Some(paths) = table(self.want, key) {
                if paths.contains_key(path) {
                    return true;
                }
            }
        }
        false
    }

    fn is_laid_at(&self, path: &str) -> bool {
        if let Some(laid) = table(self.want, "laid") {
            for (place, _) in laid {
                if is_in(place, path) {
                    return true;
                }
            }
        }
        false
    }

    fn is_stored_at(&self, path: &str) -> bool {
        for name in self.want.text_or_empty("stored").split_whitespace() {
            if let Some(tree) = self.chain.trees.find(name) {
                if tree.is_stored_at(path) {
                    return true;
                }
            }
        }
        false
    }
}

/// Compares a document with a table; where none is given, with an empty one.
pub(crate) fn compare_document(
    answer: &mut Answer,
    what: &str,
    wanted: Option<&Value>,
    text: &str,
) {
    if !reads_as(answer.alloc, text, wanted) {
        tell(answer, what, "another document", text);
    }
}

fn reads_as(alloc: Global, text: &str, wanted: Option<&Value>) -> bool {
    match toml::table_from_str(alloc, text) {
        Ok(found) => match wanted {
            Some(wanted) => wanted.as_table() == Some(&found),
            None => found.is_empty(),
        },
        Err(_) => false,
    }
}

// Whether a tree stands at a place, whole and with nothing besides.
fn is_laid(answer: &mut Answer, tree: &Tree, place: &str, after: &Standing) -> bool {
    let mut items = List::new(answer.alloc);
    push_folder(answer, &mut items, place, tree.files());
    match Standing::of_items(answer, items) {
        Some(wanted) => has_all(&wanted, after, place) && has_all(after, &wanted, place),
        None => false,
    }
}

// Whether all of one that stands in a folder stands in the other.
fn has_all(one: &Standing, other: &Standing, folder: &str) -> bool {
    for (path, _) in &one.found {
        if is_in(folder, path) && !one.is_equal_at(other, path) {
            return false;
        }
    }
    true
}
