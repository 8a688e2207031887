// Runs in which one more call failed.
use crate::came::Came;
use crate::compared_caches::is_of_dropped;
use crate::comparison::Comparison;
use crate::sides::{compare, tell};
use crate::standing::{Standing, is_in};
use row_files::{Answer, text_of};

impl Comparison<'_> {
    /// Compares a run in which a call on files or a child failed: it ends with one of these lines, and what it did is a
    /// beginning of what the row wants.
    pub fn judge_refused(
        &self,
        answer: &mut Answer,
        came: &mut Came,
        whole: &Standing,
        lines: &[&str],
    ) {
        if !is_told_in_a_line(came.status, &came.printed, lines) {
            tell(answer, "with a failed call", "its line", &came.printed);
        }
        self.asked(answer, came)
            .compare_beginning(answer, "asked with a failed call");
        self.ran(answer, came)
            .compare_beginning(answer, "ran with a failed call");
        let after = Standing::of(answer, &mut came.world);
        self.compare_partly(answer, &after, whole);
        self.compare_kept(answer, &after);
    }

    /// Compares a run in which the text was cut: its status says so, and all else is as where it wasn't.
    pub fn judge_cut(&self, answer: &mut Answer, came: &mut Came, whole: &Standing) {
        if came.status != 7 || !self.prints.starts_with(came.printed.as_str()) {
            tell(answer, "with a cut text", &self.prints, &came.printed);
        }
        let after = Standing::of(answer, &mut came.world);
        let changed = whole.changed(answer, &after);
        for path in changed.as_slice() {
            tell(answer, path, "as without the cut", after.kind(path));
        }
    }

    /// Compares a run in which a call of a cache failed: the cache alone is dropped, and what else is printed and
    /// stands is a part of what the row wants.
    pub fn judge_dropped(&self, answer: &mut Answer, came: &mut Came, whole: &Standing) {
        let is_status = u64::from(came.status) == self.status();
        if !is_status || !self.are_wanted_but_dropped(&came.printed) {
            let wanted = "its lines and a dropped cache";
            tell(answer, "with a failed cache", wanted, &came.printed);
        }
        let after = Standing::of(answer, &mut came.world);
        self.compare_partly(answer, &after, whole);
    }

    // Whether each line is wanted, but for one that says that a cache was dropped.
    fn are_wanted_but_dropped(&self, printed: &str) -> bool {
        let mut dropped = 0u64;
        for line in printed.lines() {
            if is_of_dropped(line) {
                dropped = dropped.saturating_add(1);
            } else if !self.is_wanted(line) {
                return false;
            }
        }
        dropped == 1
    }

    fn is_wanted(&self, line: &str) -> bool {
        for wanted in self.want.list("prints") {
            if text_of(wanted) == line {
                return true;
            }
        }
        false
    }

    // Compares the paths that only a run without a failed call changes.
    fn compare_kept(&self, answer: &mut Answer, after: &Standing) {
        for path in self.want.list("whole-alone") {
            let path = text_of(path);
            if !after.is_same_at(&self.before, path) {
                tell(answer, path, "as before", after.kind(path));
            }
        }
    }

    // Compares what is there where a run came to a part of its work.
    fn compare_partly(&self, answer: &mut Answer, after: &Standing, whole: &Standing) {
        let changed = self.before.changed(answer, after);
        let mut others = Answer::new(answer.alloc);
        for path in changed.as_slice() {
            if !self.is_whole_or_a_part(after, whole, path) {
                others.put_all(&[" ", path]);
            }
        }
        let others = answer.taken(others);
        compare(answer, "neither as before nor whole", "", &others);
    }

    // Whether what the whole run leaves stands at a path, or the unfinished copy of it, or the first bytes of a tree
    // that is put into a store, or, in a folder that the row names, a part of it.
    fn is_whole_or_a_part(&self, after: &Standing, whole: &Standing, path: &str) -> bool {
        if after.is_same_at(whole, path) {
            return true;
        }
        if let Some(document) = path.strip_suffix(".new") {
            return !self.before.is_same_at(whole, document)
                && is_part_of(after, path, whole, document);
        }
        if let Some(folder) = path.strip_suffix("/new") {
            if folder.ends_with("/trees") {
                return is_part_of_one_in(after, path, whole, folder);
            }
        }
        self.may_be_a_part(path)
            && (after.kind(path) == "absent" || is_part_of(after, path, whole, path))
    }

    // Whether a path is in one of the folders in which a part may stand.
    fn may_be_a_part(&self, path: &str) -> bool {
        for folder in self.want.list("partly") {
            if is_in(text_of(folder), path) {
                return true;
            }
        }
        false
    }
}

// Whether a file has the first bytes of another.
fn is_part_of(after: &Standing, path: &str, whole: &Standing, other: &str) -> bool {
    match (after.file(path), whole.file(other)) {
        (Some(part), Some(bytes)) => bytes.starts_with(part),
        _ => false,
    }
}

// Whether a file has the first bytes of one that stands in a folder.
fn is_part_of_one_in(after: &Standing, path: &str, whole: &Standing, folder: &str) -> bool {
    for (other, _) in &whole.found {
        if is_in(folder, other) && is_part_of(after, path, whole, other) {
            return true;
        }
    }
    false
}

fn is_told_in_a_line(status: u8, printed: &str, lines: &[&str]) -> bool {
    let is_file = status == 2 && printed.starts_with("error 2 File /");
    let is_child = status == 5 && printed == "error 5 Child\n";
    begins_as(printed, lines) && (is_file || is_child) && printed.lines().count() == 1
}

fn begins_as(printed: &str, lines: &[&str]) -> bool {
    for line in lines {
        if printed.starts_with(*line) {
            return true;
        }
    }
    false
}
