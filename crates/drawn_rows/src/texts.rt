// What the two comparisons have in common: counts, texts with a number, and keys of them.
use cnb_toml::{BpId, BpVersion, Key};
use row_files::Answer;

/// Three sums.
#[derive(Drop)]
pub(crate) struct Sums {
    pub(crate) first: u64,
    pub(crate) second: u64,
    pub(crate) third: u64,
}

impl Sums {
    pub(crate) fn add(&mut self, first: u64, second: u64, third: u64) {
        self.first = self.first.saturating_add(first);
        self.second = self.second.saturating_add(second);
        self.third = self.third.saturating_add(third);
    }
}

/// Adds a number, with a text behind it.
pub(crate) fn put_number(answer: &mut Answer, number: u64, behind: &str) {
    answer.show(&number);
    answer.put(behind);
}

/// A number between two texts.
fn numbered(answer: &mut Answer, front: &str, number: u64, behind: &str) -> String {
    let mut text = Answer::new(answer.alloc);
    text.put(front);
    put_number(&mut text, number, behind);
    answer.taken(text)
}

/// The key of an id that is a letter and a number, and of a version that is this number and `.0.0`.
pub(crate) fn key(answer: &mut Answer, letter: &str, id: u64, version: u64) -> Option<Key> {
    let id = numbered(answer, letter, id, "");
    let version = numbered(answer, "", version, ".0.0");
    match BpId::parse(answer.alloc, id.as_str()) {
        Ok(id) => with_version(answer, id, version.as_str()),
        Err(_) => {
            answer.wrong("no buildpack:", id.as_str());
            None
        }
    }
}

fn with_version(answer: &mut Answer, id: BpId, version: &str) -> Option<Key> {
    match BpVersion::parse(answer.alloc, version) {
        Ok(version) => Some(Key { id, version }),
        Err(_) => {
            answer.wrong("no buildpack:", id.as_str());
            None
        }
    }
}

/// Whether what was found is what is wanted. Where it is not, both are added, with the seed and what was made of it.
pub(crate) fn is_wanted(
    answer: &mut Answer,
    what: &str,
    seed: u64,
    found: &str,
    mark: &str,
    want: &str,
) -> bool {
    if found == want {
        return true;
    }
    answer.put(what);
    put_number(answer, seed, ": ");
    answer.put_all(&[found, mark, want]);
    false
}
