// Rows that a generator makes up: orders, and what children answer.
use rand_core::{Rng, SeedableRng};
use rand_xoshiro::SplitMix64;
use row_files::{Answer, Row};
use std::collections::BTreeMap;

const NAMES: [&str; 4] = ["p", "q", "r", "s"];

const SYSTEMS: [&str; 3] = ["", "linux", "windows"];

const ARCHITECTURES: [&str; 3] = ["", "amd64", "arm64"];

/// What a row of `detect` is given: an order over composites and a few buildpacks, or in one of 128 rows two hundred;
/// what each child answers, or that it gives no answer; and how much time children take. Where the row is targeted also
/// an image that is built for, and targets of buildpacks.
pub(crate) fn random_row(answer: &mut Answer, seed: u64, targeted: bool) -> Row {
    let mut name = Answer::new(answer.alloc);
    name.put("random ");
    name.show(&seed);
    let mut row = Row {
        name: answer.taken(name),
        call: answer.joined(&["detect"]),
        given: BTreeMap::new(answer.alloc),
        want: String::new(answer.alloc),
    };
    let mut maker = Maker::new(seed);
    maker.give(answer, &mut row);
    if targeted {
        maker.give_targets(answer, &mut row);
    }
    row
}

fn insert(answer: &mut Answer, row: &mut Row, name: &str, text: Answer) {
    let name = answer.joined(&[name]);
    let text = answer.taken(text);
    if row.given.insert(name, text).is_err() {
        answer.run_out();
    }
}

// The generator, and how many buildpacks and composites there are. The buildpacks of numbers 2n and 2n + 1 are two
// versions of one id.
#[derive(Drop)]
struct Maker {
    generator: SplitMix64,
    buildpacks: u64,
    composites: u64,
}

// Adds the id and the version of a buildpack, with this text between them.
fn put_key(answer: &mut Answer, number: u64, between: &str) {
    answer.put("b");
    answer.show(&(number / 2));
    answer.put(between);
    answer.show(&(number % 2).saturating_add(1));
    answer.put(".0.0");
}

impl Maker {
    fn new(seed: u64) -> Maker {
        let mut maker = Maker {
            generator: SplitMix64::seed_from_u64(seed),
            buildpacks: 200,
            composites: 0,
        };
        if !maker.is_one_in(128) {
            maker.buildpacks = maker.below(15).saturating_add(2);
        }
        maker.composites = maker.below(3);
        maker
    }

    // A number below a limit.
    fn below(&mut self, limit: u64) -> u64 {
        self.generator.next_u64().checked_rem(limit).unwrap_or(0)
    }

    fn is_one_in(&mut self, count: u64) -> bool {
        self.below(count) == 0
    }

    // One of these words, from the one of a number on.
    fn one_of(&mut self, words: &[&'static str], least: u64) -> &'static str {
        let count = (words.len() as u64).saturating_sub(least);
        let place = self.below(count).saturating_add(least) as usize;
        words.get(place).unwrap_or(&"")
    }

    fn give(&mut self, answer: &mut Answer, row: &mut Row) {
        let mut order = Answer::new(answer.alloc);
        let all = self.buildpacks.saturating_add(self.composites);
        self.put_groups(&mut order, all, self.buildpacks);
        insert(answer, row, "order", order);
        self.give_components(answer, row);
        self.give_composites(answer, row);
        self.give_replies(answer, row);
        let mut pause = Answer::new(answer.alloc);
        pause.show(&self.below(4096));
        insert(answer, row, "pause", pause);
    }

    fn give_components(&self, answer: &mut Answer, row: &mut Row) {
        let mut text = Answer::new(answer.alloc);
        for number in 0..self.buildpacks {
            put_key(&mut text, number, "@");
            text.put(" ");
        }
        insert(answer, row, "components", text);
    }

    // The composites, each with groups of at most three buildpacks.
    fn give_composites(&mut self, answer: &mut Answer, row: &mut Row) {
        let mut text = Answer::new(answer.alloc);
        for number in 0..self.composites {
            text.put("api = \"0.10\"\nbuildpack = { id = \"o");
            text.show(&number);
            text.put("\", version = \"1.0.0\" }\n");
            self.put_groups(&mut text, self.buildpacks, 3);
            text.put("\n");
        }
        insert(answer, row, "descriptors", text);
    }

    // One to three groups, each of one entry to so many, of so many buildpacks with the composites behind them.
    fn put_groups(&mut self, answer: &mut Answer, all: u64, most: u64) {
        answer.put("order = [\n");
        for _ in 0..self.below(3).saturating_add(1) {
            answer.put("  { group = [");
            for _ in 0..self.below(most).saturating_add(1) {
                self.put_entry(answer, all);
            }
            answer.put("] },\n");
        }
        answer.put("]\n");
    }

    fn put_entry(&mut self, answer: &mut Answer, all: u64) {
        let (number, optional) = (self.below(all), !self.is_one_in(self.buildpacks));
        answer.put("{ id = \"");
        match number.checked_sub(self.buildpacks) {
            Some(composite) => {
                answer.put("o");
                answer.show(&composite);
            }
            None => put_key(answer, number, "\", version = \""),
        }
        answer.put("\", optional = ");
        answer.show(&optional);
        answer.put(" }, ");
    }

    fn give_replies(&mut self, answer: &mut Answer, row: &mut Row) {
        let mut text = Answer::new(answer.alloc);
        for number in 0..self.buildpacks {
            self.put_reply(&mut text, number);
        }
        insert(answer, row, "replies", text);
    }

    // The more buildpacks there are, the fewer of them do not pass.
    fn put_reply(&mut self, answer: &mut Answer, number: u64) {
        let end = if self.is_one_in(self.buildpacks) {
            self.below(8)
        } else {
            8
        };
        if end == 0 {
            return;
        }
        answer.put("> ");
        put_key(answer, number, " ");
        answer.put(match end {
            1 => " none\n",
            2 => " 1\n",
            3 => " 0\nno plan\n",
            4..=7 => " 100\n",
            _ => " 0\n",
        });
        if end == 8 {
            self.put_plan(answer, number);
        }
    }

    fn put_plan(&mut self, answer: &mut Answer, number: u64) {
        self.put_option(answer, number);
        for _ in 0..2 {
            if self.is_one_in(self.buildpacks) {
                answer.put("[[or]]\n");
                self.put_option(answer, number);
            }
        }
    }

    // At most a name that is provided, and at most one that is required.
    fn put_option(&mut self, answer: &mut Answer, number: u64) {
        if self.is_one_in(2) {
            answer.put_all(&["provides = [{ name = \"", self.one_of(&NAMES, 0), "\" }]\n"]);
        }
        if self.is_one_in(2) {
            answer.put_all(&[
                "requires = [{ name = \"",
                self.one_of(&NAMES, 0),
                "\", metadata = { by = \"",
            ]);
            answer.show(&number);
            answer.put("\" } }]\n");
        }
    }

    // What is drawn last: an image that is built for, or in one of four rows none, and targets of the buildpacks.
    fn give_targets(&mut self, answer: &mut Answer, row: &mut Row) {
        let mut target = Answer::new(answer.alloc);
        if !self.is_one_in(4) {
            self.put_target(&mut target, 1);
        }
        insert(answer, row, "target", target);
        let mut targets = Answer::new(answer.alloc);
        for number in 0..self.buildpacks {
            self.put_targets_of(&mut targets, number);
        }
        insert(answer, row, "targets", targets);
    }

    // The more buildpacks there are, the fewer of them have targets, which are one or two then.
    fn put_targets_of(&mut self, answer: &mut Answer, number: u64) {
        if self.is_one_in(self.buildpacks / 4) {
            put_key(answer, number, "@");
            for _ in 0..self.below(2).saturating_add(1) {
                answer.put(" ");
                self.put_target(answer, 0);
            }
            answer.put("\n");
        }
    }

    // Adds an operating system and an architecture, each of which may be none where the least is 0.
    fn put_target(&mut self, answer: &mut Answer, least: u64) {
        let (system, architecture) = (
            self.one_of(&SYSTEMS, least),
            self.one_of(&ARCHITECTURES, least),
        );
        answer.put_all(&[system, "/", architecture]);
    }
}
