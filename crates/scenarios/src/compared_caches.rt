// The caches after a run beside what is wanted.
use crate::came::Came;
use crate::compared_files::compare_document;
use crate::comparison::Comparison;
use crate::shelves::{Holding, put_in_order};
use crate::sides::{Sides, compare, compare_numbers};
use row_files::{Answer, Fields};

impl Comparison<'_> {
    /// Compares the caches that stand, which come before those that were dropped. Where the row says nothing of them,
    /// those that it was given are to be as before.
    pub(crate) fn compare_caches(&self, answer: &mut Answer, came: &Came) {
        let is_wanted = self.want.has("shelves");
        let shelves = if is_wanted {
            self.want.list("shelves")
        } else {
            self.chain.shelves()
        };
        compare_count(answer, shelves.len(), came);
        for (value, holding) in shelves.iter().zip(came.caches.as_slice()) {
            let row = Fields { value };
            self.compare_trees(answer, row, holding);
            if is_wanted {
                compare_document(answer, "a cache's rows", value.get("rows"), holding.rows());
            } else {
                compare(
                    answer,
                    "a cache's rows",
                    row.text_or_empty("rows"),
                    holding.rows(),
                );
            }
        }
    }

    fn compare_trees(&self, answer: &mut Answer, row: Fields, holding: &Holding) {
        let mut sides = Sides::new(answer.alloc);
        put_in_order(
            &mut sides.wanted,
            self.chain.trees,
            row.text_or_empty("holds"),
        );
        sides.came.put(holding.names());
        sides.compare(answer, "a cache's trees");
    }
}

// Compares how many caches stand: those that no line says were dropped.
fn compare_count(answer: &mut Answer, wanted: usize, came: &Came) {
    let mut standing = came.caches.as_slice().len();
    for line in came.printed.lines() {
        if is_of_dropped(line) {
            standing = standing.saturating_sub(1);
        }
    }
    compare_numbers(answer, "caches", wanted as u64, standing as u64);
}

/// Whether a line says that a cache was dropped.
pub(crate) fn is_of_dropped(line: &str) -> bool {
    line.starts_with("cache ") && line.ends_with(" dropped")
}
