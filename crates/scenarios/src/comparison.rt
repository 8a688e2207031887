// What came of a run beside what is wanted.
use crate::came::Came;
use crate::chain::Chain;
use crate::documents::id_and_version;
use crate::outage::Outage;
use crate::sides::{Sides, compare, compare_numbers};
use crate::standing::Standing;
use crate::taking::table;
use cnb_world::{ChildJob, Env, List};
use row_files::{Answer, Fields, text_of};
use toml::Value;

/// What a row wants, and what stands before it is run.
#[derive(Drop)]
pub struct Comparison<'a> {
    pub chain: &'a Chain<'a>,
    pub(crate) want: Fields<'a>,
    pub(crate) before: Standing,
    pub(crate) prints: String,
}

impl<'a> Comparison<'a> {
    pub fn new(
        answer: &mut Answer,
        chain: &'a Chain<'a>,
        want: Fields<'a>,
    ) -> Option<Comparison<'a>> {
        let none_fails = List::new(answer.alloc);
        let mut world = chain.world(answer, Outage::Nothing, none_fails)?;
        let before = Standing::of(answer, &mut world);
        let prints = lines_of(answer, want.list("prints"));
        Some(Comparison {
            chain,
            want,
            before,
            prints,
        })
    }

    /// Compares a run in which the calls failed that the row names; gives what stands after it.
    pub fn judge(&self, answer: &mut Answer, came: &mut Came) -> Standing {
        compare_numbers(answer, "status", self.status(), u64::from(came.status));
        compare(answer, "prints", &self.prints, &came.printed);
        self.asked(answer, came).compare(answer, "asked");
        self.ran(answer, came).compare(answer, "ran");
        self.compare_environments(answer, came);
        self.compare_caches(answer, came);
        let after = Standing::of(answer, &mut came.world);
        self.compare_standing(answer, &after);
        after
    }

    /// The status that is wanted.
    pub(crate) fn status(&self) -> u64 {
        u64::try_from(self.want.number("status").unwrap_or(0)).unwrap_or(0)
    }

    /// The buildpacks that are to be asked, and those that were.
    pub(crate) fn asked(&self, answer: &mut Answer, came: &Came) -> Sides {
        let mut sides = Sides::new(answer.alloc);
        let mut names = List::new(answer.alloc);
        for name in self.want.text_or_empty("asked").split_whitespace() {
            let (id, version) = id_and_version(name);
            push_asked(answer, &mut names, id, version);
        }
        self.put_asked(&mut sides.wanted, names);
        let mut names = List::new(answer.alloc);
        push_all_asked(answer, &mut names, came);
        self.put_asked(&mut sides.came, names);
        sides
    }

    // Adds names with a space before each; ascending where several spawners may be asked in any order.
    fn put_asked(&self, text: &mut Answer, names: List<String>) {
        let mut names = names.into_vec();
        if self.chain.spawner_count() > 1 && names.sort().is_err() {
            text.run_out();
        }
        for name in &names {
            text.put_all(&[" ", name]);
        }
    }

    /// The command lines that are to run, and those that ran, with a bar behind each.
    pub(crate) fn ran(&self, answer: &mut Answer, came: &Came) -> Sides {
        let mut sides = Sides::new(answer.alloc);
        for line in self.want.list("ran") {
            sides.wanted.put_all(&[text_of(line), "|"]);
        }
        put_ran(&mut sides.came, came);
        sides
    }

    fn compare_environments(&self, answer: &mut Answer, came: &Came) {
        if let Some(environments) = table(self.want, "environments") {
            for (name, wanted) in environments {
                compare_environment(answer, name, wanted, came.environment_of(name));
            }
        }
        if let Some(environments) = table(self.want, "run-environments") {
            for (program, wanted) in environments {
                let found = came.run_environment_of(answer, program);
                compare_environment(answer, program, wanted, found);
            }
        }
    }
}

// Lines, each with its end.
fn lines_of(answer: &mut Answer, lines: &[Value]) -> String {
    let mut text = Answer::new(answer.alloc);
    for line in lines {
        text.put_all(&[text_of(line), "\n"]);
    }
    answer.taken(text)
}

fn push_asked(answer: &mut Answer, names: &mut List<String>, id: &str, version: &str) {
    let name = answer.joined(&[id, "@", version]);
    answer.done(names.push(name));
}

fn push_all_asked(answer: &mut Answer, names: &mut List<String>, came: &Came) {
    for spawner in &came.spawners {
        for ran in spawner.runs() {
            push_asked(answer, names, ran.job.id.as_str(), ran.job.version.as_str());
        }
    }
}

fn put_ran(text: &mut Answer, came: &Came) {
    if let Some(runs) = text.made(came.world.runs()) {
        for run in &runs {
            put_line(text, &run.job);
        }
    }
}

fn put_line(text: &mut Answer, job: &ChildJob) {
    text.put(job.program.as_str());
    for word in job.args.as_slice() {
        text.put_all(&[" ", word.as_str()]);
    }
    text.put("|");
}

fn compare_environment(answer: &mut Answer, what: &str, wanted: &Value, found: Option<&Env>) {
    let mut sides = Sides::new(answer.alloc);
    put_variables(&mut sides.wanted, wanted);
    put_environment(&mut sides.came, found);
    sides.compare(answer, what);
}

fn put_variables(text: &mut Answer, variables: &Value) {
    if let Value::Table(variables) = variables {
        for (name, value) in variables {
            text.put_all(&[" ", name, "=", text_of(value)]);
        }
    }
}

fn put_environment(text: &mut Answer, env: Option<&Env>) {
    match env {
        Some(env) => {
            for variable in env.variables() {
                let (name, value) = (variable.name.as_str(), variable.value.as_str());
                text.put_all(&[" ", name, "=", value]);
            }
        }
        None => text.put("not run"),
    }
}
