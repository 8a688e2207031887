// The rows of a folder.
use crate::chain::Chain;
use crate::keys::{SCENARIO_FILE, TREE_FILE};
use crate::taking::{found, path_of};
use crate::trees::Trees;
use cnb_world::{LONGEST_DOCUMENT, List, Path, Whole, World, read_whole};
use row_files::{Answer, Fields, Form, read_file};
use toml::Value;

/// The file of trees.
const TREES: &str = "trees.toml";

/// How many rows and bases may stand on one another.
const MOST_BASES: usize = 64;

/// The files of rows of a folder, and the trees that the rows name.
#[derive(Drop)]
pub struct Scenarios {
    trees: Trees,
    files: List<Value>,
}

impl Scenarios {
    /// Reads the files of a folder whose names end in `.toml`, ascending.
    pub fn read<W: World>(answer: &mut Answer, world: &mut W, folder: &str) -> Scenarios {
        let mut scenarios = Scenarios {
            trees: Trees::none(answer.alloc),
            files: List::new(answer.alloc),
        };
        if let Some(folder) = path_of(answer, folder) {
            scenarios.read_trees(answer, world, &folder);
            scenarios.read_files(answer, world, &folder);
        }
        scenarios
    }

    fn read_trees<W: World>(&mut self, answer: &mut Answer, world: &mut W, folder: &Path) {
        let text = read_text(answer, world, folder, TREES);
        if let Some(file) = parsed(answer, TREES, &text, &TREE_FILE) {
            self.trees.add(answer, Fields { value: &file });
        }
    }

    fn read_files<W: World>(&mut self, answer: &mut Answer, world: &mut W, folder: &Path) {
        if let Some(names) = found(answer, world.list(folder)) {
            for name in names.as_slice() {
                let name = name.as_str();
                if name.ends_with(".toml") && name != TREES {
                    self.read_rows(answer, world, folder, name);
                }
            }
        }
    }

    fn read_rows<W: World>(
        &mut self,
        answer: &mut Answer,
        world: &mut W,
        folder: &Path,
        name: &str,
    ) {
        let text = read_text(answer, world, folder, name);
        let mut filled = Answer::new(answer.alloc);
        self.trees.put_filled(&mut filled, &text);
        let filled = answer.taken(filled);
        if let Some(file) = parsed(answer, name, &filled, &SCENARIO_FILE) {
            answer.done(self.files.push(file));
        }
    }

    /// The rows.
    pub fn rows(&self, answer: &mut Answer) -> List<Fields<'_>> {
        let mut rows = List::new(answer.alloc);
        for file in self.files.as_slice() {
            for value in (Fields { value: file }).list("row") {
                answer.done(rows.push(Fields { value }));
            }
        }
        rows
    }

    /// A row with all that it stands on.
    pub fn chain<'a>(&'a self, answer: &mut Answer, row: Fields<'a>) -> Chain<'a> {
        let mut scenarios = List::new(answer.alloc);
        let mut next = Some(row);
        for _ in 0..MOST_BASES {
            if let Some(scenario) = next {
                answer.done(scenarios.push(scenario));
                next = self.base_of(answer, scenario);
            }
        }
        if scenarios.as_slice().len() >= MOST_BASES {
            answer.wrong("a base stands on itself:", row.text_or_empty("name"));
        }
        Chain {
            trees: &self.trees,
            scenarios,
        }
    }

    fn base_of(&self, answer: &mut Answer, scenario: Fields) -> Option<Fields<'_>> {
        let name = scenario.text("base")?;
        let base = self.named("base", name).or(self.named("row", name));
        if base.is_none() {
            answer.wrong("no such base:", name);
        }
        base
    }

    // The first of a name among the bases or the rows of all files.
    fn named(&self, key: &str, name: &str) -> Option<Fields<'_>> {
        for file in self.files.as_slice() {
            for value in (Fields { value: file }).list(key) {
                let found = Fields { value };
                if found.text_or_empty("name") == name {
                    return Some(found);
                }
            }
        }
        None
    }
}

fn parsed(answer: &mut Answer, name: &str, text: &str, form: &Form) -> Option<Value> {
    match read_file(answer.alloc, name, text, form) {
        Ok(file) => Some(file),
        Err(fault) => {
            answer.fail(fault);
            None
        }
    }
}

fn read_text<W: World>(answer: &mut Answer, world: &mut W, folder: &Path, name: &str) -> String {
    let mut text = Answer::new(answer.alloc);
    put_file(&mut text, world, folder, name);
    answer.taken(text)
}

fn put_file<W: World>(text: &mut Answer, world: &mut W, folder: &Path, name: &str) {
    let path = text.joined(&[folder.as_str(), "/", name]);
    let Some(path) = path_of(text, &path) else {
        return;
    };
    match found(text, read_whole(world, &path, LONGEST_DOCUMENT as u64)) {
        Some(Whole::Bytes(bytes)) => text.put_lossy(bytes.as_slice()),
        Some(Whole::Absent) | Some(Whole::Large(_)) => text.wrong("no file of rows:", name),
        None => {}
    }
}
