// A spawner whose children wait for others, or take some time.
use crate::given::{Given, number_or};
use cnb_world::{DetectFault, DetectJob, List, MemSpawner, Probed, Reply, Spawner};
use row_files::Answer;
use std::alloc::Global;
use std::sync::Arc;
use std::sync::atomic::AtomicU64;
use std::sync::atomic::Ordering::SeqCst;
use std::thread::sleep;
use std::time::Duration;

/// For how many milliseconds at least a child waits for others, where a row doesn't say: longer than a busy machine
/// takes to let each thread begin.
const PATIENCE: u64 = 20_000;

/// Holds the children of some ids until so many have begun, counted over all spawners; it is a counted fault where they
/// never do. Then each child takes its time, as a number of reads of the count.
#[derive(Drop)]
pub struct Meeting<'a> {
    clock: &'a HostRuntime,
    held: &'a str,
    least: u64,
    patience: u64,
    begun: Arc<AtomicU64, Global>,
    pause: u64,
    pub children: MemSpawner,
    faults: u64,
}

// Whether a count comes to a number while this thread sleeps so many milliseconds.
fn comes_to(clock: &HostRuntime, count: &AtomicU64, least: u64, patience: u64) -> bool {
    for _ in 0..patience {
        if count.load(SeqCst) >= least {
            return true;
        }
        sleep(clock, Duration::from_millis(1));
    }
    false
}

fn pass_time(count: &AtomicU64, turns: u64) {
    for _ in 0..turns {
        let _count = count.load(SeqCst);
    }
}

/// A count of the children that have begun, which spawners share.
pub(crate) fn new_count(answer: &mut Answer) -> Option<Arc<AtomicU64, Global>> {
    match Arc::new(answer.alloc, AtomicU64::new(0)) {
        Ok(count) => Some(count),
        Err(_) => {
            answer.run_out();
            None
        }
    }
}

fn shared(answer: &mut Answer, count: &Arc<AtomicU64, Global>) -> Option<Arc<AtomicU64, Global>> {
    match Arc::try_clone(count) {
        Ok(count) => Some(count),
        Err(_) => {
            answer.run_out();
            None
        }
    }
}

impl<'a> Meeting<'a> {
    /// A spawner whose children say what these replies say, and are held as the row says; all that share a count wait
    /// for one another. Its calls of the numbers in `failing` fail.
    pub(crate) fn new(
        answer: &mut Answer,
        given: &Given<'a>,
        begun: &Arc<AtomicU64, Global>,
        pause: u64,
        replies: List<Reply>,
        failing: List<u64>,
    ) -> Option<Meeting<'a>> {
        let children = answer.made(MemSpawner::new(answer.alloc, replies, failing))?;
        Some(Meeting {
            clock: given.clock,
            held: given.row.text_or_empty("held"),
            least: number_or(answer, given.row, "least", 0),
            patience: number_or(answer, given.row, "patience", PATIENCE),
            begun: shared(answer, begun)?,
            pause,
            children,
            faults: 0,
        })
    }

    fn meets(&self) -> bool {
        comes_to(self.clock, &self.begun, self.least, self.patience)
    }

    fn is_held(&self, id: &str) -> bool {
        self.held.split_whitespace().any(|word| word == id)
    }
}

impl<'a> Spawner for Meeting<'a> {
    ghost runs = { λ s. ⟦<MemSpawner as Spawner>⟧.runs s.children };

    ghost says = { λ s. ⟦<MemSpawner as Spawner>⟧.says s.children };

    ghost faults = { λ s. s.faults };

    fn detect(&mut self, job: &DetectJob) -> Result<Probed, DetectFault> {
        self.begun.fetch_add(1, SeqCst);
        if self.is_held(job.id.as_str()) && !self.meets() {
            self.faults = self.faults.saturating_add(1);
            return Err(DetectFault::Failed);
        }
        pass_time(&self.begun, self.pause);
        match self.children.detect(job) {
            Ok(probed) => Ok(probed),
            Err(DetectFault::Failed) => {
                self.faults = self.faults.saturating_add(1);
                Err(DetectFault::Failed)
            }
            Err(DetectFault::Memory) => Err(DetectFault::Memory),
        }
    }
}
