// Caches in memory.
use crate::chain::Chain;
use crate::outage::Outage;
use crate::taking::numbers;
use crate::trees::{Tree, Trees};
use cnb_world::{Held, List, MemShelf, Shelf};
use row_files::{Answer, Fields};

impl Chain<'_> {
    /// The caches before the run, of which one more call may fail.
    pub fn mem_shelves(&self, answer: &mut Answer, outage: Outage) -> Vec<MemShelf> {
        let mut shelves = List::new(answer.alloc);
        for (place, value) in self.shelves().iter().enumerate() {
            let more = outage.of_shelf(place);
            if let Some(shelf) = shelf(answer, self.trees, Fields { value }, more) {
                answer.done(shelves.push(shelf));
            }
        }
        shelves.into_vec()
    }
}

fn shelf(answer: &mut Answer, trees: &Trees, row: Fields, more: Option<u64>) -> Option<MemShelf> {
    let held = held_by(answer, trees, row.text_or_empty("holds"));
    let rows = answer.bytes(row.text_or_empty("rows").as_bytes());
    let failing = numbers(answer, row.list("failing"), more);
    answer.made(MemShelf::new(answer.alloc, rows, held, failing))
}

fn held_by(answer: &mut Answer, trees: &Trees, names: &str) -> List<Held> {
    let mut held = List::new(answer.alloc);
    for word in names.split_whitespace() {
        if let Some(tree) = trees.named(answer, name_of(word)) {
            let held_as = held_as(answer, tree, word);
            answer.done(held.push(held_as));
        }
    }
    held
}

// The name of a tree without the `?` behind it, which says that its bytes were emptied.
fn name_of(word: &str) -> &str {
    word.trim_end_matches('?')
}

fn held_as(answer: &mut Answer, tree: &Tree, word: &str) -> Held {
    let bytes = if word.ends_with('?') {
        &[]
    } else {
        tree.spelling.as_slice()
    };
    Held {
        digest: tree.digest,
        bytes: answer.bytes(bytes),
    }
}

/// What a cache holds: the names of the trees, and its rows document. Of one whose next calls fail nothing is known.
#[derive(Drop)]
pub struct Holding {
    pub names: String,
    pub rows: String,
    pub is_known: bool,
}

/// Adds what each cache holds.
pub fn push_holdings(
    answer: &mut Answer,
    holdings: &mut List<Holding>,
    trees: &Trees,
    shelves: &mut Vec<Box<dyn Shelf>>,
) {
    for shelf in shelves.iter_mut() {
        let holding = look_into(answer, trees, shelf);
        answer.done(holdings.push(holding));
    }
}

fn look_into(answer: &mut Answer, trees: &Trees, shelf: &mut Box<dyn Shelf>) -> Holding {
    let (mut names, mut rows) = (Answer::new(answer.alloc), Answer::new(answer.alloc));
    let is_known = put_rows(&mut rows, shelf) && put_names(&mut names, trees, shelf);
    Holding {
        names: answer.taken(names),
        rows: answer.taken(rows),
        is_known,
    }
}

fn put_rows(rows: &mut Answer, shelf: &mut Box<dyn Shelf>) -> bool {
    match shelf.rows() {
        Ok(bytes) => {
            rows.put_lossy(bytes.as_slice());
            true
        }
        Err(_) => false,
    }
}

fn put_names(names: &mut Answer, trees: &Trees, shelf: &mut Box<dyn Shelf>) -> bool {
    for tree in trees.all.as_slice() {
        if !put_name(names, tree, shelf) {
            return false;
        }
    }
    true
}

// Adds the name of a tree that is held. One under whose digest there are other bytes has a `?` behind its name.
fn put_name(names: &mut Answer, tree: &Tree, shelf: &mut Box<dyn Shelf>) -> bool {
    match shelf.get(&tree.digest) {
        Ok(Some(bytes)) => {
            let is_whole = bytes.as_slice() == tree.spelling.as_slice();
            names.put_all(&[" ", tree.name(), if is_whole { "" } else { "?" }]);
            true
        }
        Ok(None) => true,
        Err(_) => false,
    }
}

impl Holding {
    /// The names, where they are known.
    pub(crate) fn names(&self) -> &str {
        if self.is_known {
            &self.names
        } else {
            " unknown"
        }
    }

    /// The rows document, where it is known.
    pub(crate) fn rows(&self) -> &str {
        if self.is_known { &self.rows } else { "unknown" }
    }
}

/// Adds the names of trees as a `Holding` has them, in the order of the trees.
pub(crate) fn put_in_order(names: &mut Answer, trees: &Trees, wanted: &str) {
    for word in wanted.split_whitespace() {
        trees.named(names, name_of(word));
    }
    for tree in trees.all.as_slice() {
        if let Some(word) = word_of(wanted, tree.name()) {
            names.put_all(&[" ", word]);
        }
    }
}

// The first word with the name of a tree.
fn word_of<'a>(words: &'a str, name: &str) -> Option<&'a str> {
    for word in words.split_whitespace() {
        if name_of(word) == name {
            return Some(word);
        }
    }
    None
}
