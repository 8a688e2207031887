// The files, children and output that a run is given. Calls of them fail as the row names them, and one more may.
use crate::came::Came;
use crate::chain::Chain;
use crate::outage::Outage;
use crate::sink::PieceSink;
use cnb_world::{List, MemSpawner, MemWorld};
use row_files::Answer;

impl Chain<'_> {
    /// A run that has not begun.
    pub fn not_yet_run(&self, answer: &mut Answer, outage: Outage) -> Option<Came> {
        let out = self.sink(answer, outage)?;
        let spawners = self.spawners(answer, outage);
        let failing = self.failing(answer, "world", outage);
        let world = self.world(answer, outage, failing)?;
        Some(Came {
            status: 0,
            out,
            spawners,
            world,
            printed: String::new(answer.alloc),
            caches: List::new(answer.alloc),
        })
    }

    /// The output.
    pub fn sink(&self, answer: &mut Answer, outage: Outage) -> Option<PieceSink> {
        let failing = self.failing(answer, "sink", outage);
        answer.made(PieceSink::new(answer.alloc, failing))
    }

    /// The children that are asked.
    pub fn spawners(&self, answer: &mut Answer, outage: Outage) -> Vec<MemSpawner> {
        let mut spawners = List::new(answer.alloc);
        for _ in 0..self.spawner_count() {
            if let Some(spawner) = self.spawner(answer, outage) {
                answer.done(spawners.push(spawner));
            }
        }
        spawners.into_vec()
    }

    fn spawner(&self, answer: &mut Answer, outage: Outage) -> Option<MemSpawner> {
        let failing = self.failing(answer, "spawner", outage);
        let replies = self.replies(answer);
        answer.made(MemSpawner::new(answer.alloc, replies, failing))
    }

    /// The files, with these calls failing.
    pub(crate) fn world(
        &self,
        answer: &mut Answer,
        outage: Outage,
        failing: List<u64>,
    ) -> Option<MemWorld> {
        let mut items = self.items(answer);
        if let Outage::Cut(length) = outage {
            self.push_cut(answer, &mut items, length);
        }
        let plays = self.plays(answer);
        answer.made(MemWorld::new(answer.alloc, items, plays, failing))
    }
}
