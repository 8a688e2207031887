// What is wanted beside what came.
use row_files::Answer;
use std::alloc::Global;

/// Adds what differs.
pub(crate) fn tell(answer: &mut Answer, what: &str, wanted: &str, came: &str) {
    answer.put_all(&[" ", what, ": wanted "]);
    answer.debug(&wanted);
    answer.put(", came ");
    answer.debug(&came);
    answer.put(";");
}

/// Adds what differs, where it does.
pub fn compare(answer: &mut Answer, what: &str, wanted: &str, came: &str) {
    if wanted != came {
        tell(answer, what, wanted, came);
    }
}

/// The text that is wanted and the text that came, while they are written.
#[derive(Drop)]
pub struct Sides {
    pub wanted: Answer,
    pub came: Answer,
}

impl Sides {
    pub(crate) fn new(alloc: Global) -> Sides {
        Sides {
            wanted: Answer::new(alloc),
            came: Answer::new(alloc),
        }
    }

    /// Adds what differs, where it does.
    pub(crate) fn compare(self, answer: &mut Answer, what: &str) {
        let Sides { wanted, came } = self;
        let wanted = answer.taken(wanted);
        let came = answer.taken(came);
        compare(answer, what, &wanted, &came);
    }

    /// Adds what differs, where what came is no beginning of what is wanted.
    pub(crate) fn compare_beginning(self, answer: &mut Answer, what: &str) {
        let Sides { wanted, came } = self;
        let wanted = answer.taken(wanted);
        let came = answer.taken(came);
        if !wanted.starts_with(came.as_str()) {
            tell(answer, what, &wanted, &came);
        }
    }
}

/// Compares numbers.
pub(crate) fn compare_numbers(answer: &mut Answer, what: &str, wanted: u64, came: u64) {
    let mut sides = Sides::new(answer.alloc);
    sides.wanted.show(&wanted);
    sides.came.show(&came);
    sides.compare(answer, what);
}
