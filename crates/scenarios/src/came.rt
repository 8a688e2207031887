// What came of a run.
use crate::documents::id_and_version;
use crate::shelves::Holding;
use crate::sink::PieceSink;
use cnb_world::{Env, List, MemSpawner, MemWorld};
use row_files::Answer;

/// What came of a run: its status, the text that was taken, the children that ran, the files, and the standing caches.
#[derive(Drop)]
pub struct Came {
    pub status: u8,
    pub out: PieceSink,
    pub spawners: Vec<MemSpawner>,
    pub world: MemWorld,
    pub printed: String,
    pub caches: List<Holding>,
}

impl Came {
    /// Keeps the status with which the run ended, and what it printed.
    pub fn end(&mut self, answer: &mut Answer, status: u8) {
        self.status = status;
        let mut printed = Answer::new(answer.alloc);
        printed.put_lossy(self.out.as_slice());
        self.printed = answer.taken(printed);
    }

    /// How many children of the first spawner were asked.
    pub fn asked_count(&self) -> usize {
        match self.spawners.first() {
            Some(spawner) => spawner.runs().len(),
            None => 0,
        }
    }

    /// Whether the cache of this number could not be looked into.
    pub fn is_unknown(&self, place: usize) -> bool {
        match self.caches.as_slice().get(place) {
            Some(holding) => !holding.is_known,
            None => false,
        }
    }

    /// The environment of a buildpack's child, where it was asked.
    pub(crate) fn environment_of(&self, name: &str) -> Option<&Env> {
        let (id, version) = id_and_version(name);
        for spawner in &self.spawners {
            for ran in spawner.runs() {
                if ran.job.id.as_str() == id && ran.job.version.as_str() == version {
                    return Some(&ran.job.env);
                }
            }
        }
        None
    }

    /// The environment of the first child of a program that ran over the files.
    pub(crate) fn run_environment_of(&self, answer: &mut Answer, program: &str) -> Option<&Env> {
        for run in answer.made(self.world.runs())? {
            if run.job.program.as_str() == program {
                return Some(&run.job.env);
            }
        }
        None
    }
}
