// What a row is given, with all that it stands on.
use crate::documents::push_documents;
use crate::items::{play, push_files, push_stored, push_trees};
use crate::outage::Outage;
use crate::replies::push_replies;
use crate::taking::{numbers, table};
use crate::trees::Trees;
use cnb_world::{Env, List, Placed, Play, Reply};
use row_files::{Answer, Fields, text_of};
use toml::Value;

/// A row, its base, the base of that, and so on. What stands nearer to the row replaces or comes before what is
/// farther.
#[derive(Drop)]
pub struct Chain<'a> {
    pub trees: &'a Trees,
    pub scenarios: List<Fields<'a>>,
}

impl<'a> Chain<'a> {
    // What the nearest that has a key has under it.
    fn nearest(&self, key: &str) -> Option<&'a Value> {
        for scenario in self.scenarios.as_slice() {
            if scenario.has(key) {
                return scenario.value.get(key);
            }
        }
        None
    }

    /// The words of the nearest that has some.
    pub fn words(&self, answer: &mut Answer) -> Vec<String> {
        let mut words = List::new(answer.alloc);
        if let Some(text) = self.nearest("words") {
            for word in text_of(text).split_whitespace() {
                let word = answer.joined(&[word]);
                answer.done(words.push(word));
            }
        }
        words.into_vec()
    }

    /// The calls of one kind that fail, of the nearest that says of any which fail, and that of an outage.
    pub(crate) fn failing(&self, answer: &mut Answer, kind: &str, outage: Outage) -> List<u64> {
        let failing = match self.nearest("failing") {
            Some(value) => (Fields { value }).list(kind),
            None => &[],
        };
        numbers(answer, failing, outage.of(kind))
    }

    /// The caches of the nearest that has some.
    pub fn shelves(&self) -> &'a [Value] {
        match self.nearest("shelves") {
            Some(Value::Array(shelves)) => shelves,
            _ => &[],
        }
    }

    /// The number of spawners of the nearest that has one, else 1.
    pub fn spawner_count(&self) -> i64 {
        match self.nearest("spawners") {
            Some(count) => count.as_integer().unwrap_or(1),
            None => 1,
        }
    }

    /// The variables of all, the nearest last.
    pub fn environment(&self, answer: &mut Answer) -> Env {
        let mut env = Env::new(answer.alloc);
        for scenario in self.scenarios.as_slice().iter().rev() {
            set_variables(answer, &mut env, *scenario);
        }
        env
    }

    /// What stands before the run, of all, the nearest last.
    pub(crate) fn items(&self, answer: &mut Answer) -> List<Placed> {
        let mut items = List::new(answer.alloc);
        for scenario in self.scenarios.as_slice().iter().rev() {
            self.push_items(answer, &mut items, *scenario);
        }
        items
    }

    fn push_items(&self, answer: &mut Answer, items: &mut List<Placed>, scenario: Fields) {
        push_documents(answer, items, scenario);
        push_stored(answer, items, self.trees, scenario.text_or_empty("stored"));
        push_trees(answer, items, self.trees, scenario);
        push_files(answer, items, "", scenario.list("files"));
    }

    /// What the children of programs do, the nearest first.
    pub(crate) fn plays(&self, answer: &mut Answer) -> List<Play> {
        let mut plays = List::new(answer.alloc);
        for scenario in self.scenarios.as_slice() {
            for value in scenario.list("plays") {
                let play = play(answer, self.trees, Fields { value });
                answer.done(plays.push(play));
            }
        }
        plays
    }

    /// What the detect children say, the nearest first.
    pub(crate) fn replies(&self, answer: &mut Answer) -> List<Reply> {
        let mut replies = List::new(answer.alloc);
        for scenario in self.scenarios.as_slice() {
            push_replies(answer, &mut replies, *scenario);
        }
        replies
    }
}

fn set_variables(answer: &mut Answer, env: &mut Env, row: Fields) {
    if let Some(variables) = table(row, "env") {
        for (name, value) in variables {
            let (name, value) = (answer.text(name), answer.text(text_of(value)));
            answer.done(env.set(name, value));
        }
    }
}
