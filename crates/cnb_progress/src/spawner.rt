// A spawner that says how detect children ended.
ghost use Rattle.std.specs.Prelude.{◌≡◌};

use crate::level::Level;
use bp_docs::read_build_plan;
use cnb_world::{DetectFault, DetectJob, Probed, Spawner};
use std::alloc::{AllocError, Global};

/// A spawner that says on standard error how each child ended. At a level that says nothing of progress it keeps the
/// lines, so that they can explain why no group was chosen. Each call is that of the spawner within.
#[derive(Drop)]
pub struct ProgressSpawner<S: Spawner + Drop, R: Eprint + AllocGlobal + Drop> {
    spawner: S,
    rt: R,
    level: Level,
    kept: Vec<String>,
}

impl<S: Spawner + Drop, R: Eprint + AllocGlobal + Drop> ProgressSpawner<S, R> {
    pub fn new(spawner: S, rt: R, level: Level) -> ProgressSpawner<S, R> {
        let kept = Vec::new(rt.alloc());
        ProgressSpawner {
            spawner,
            rt,
            level,
            kept,
        }
    }

    /// The spawner within.
    pub fn within(&self) -> &S {
        &self.spawner
    }

    /// Says what was kept.
    pub fn explain(&self) {
        for line in self.kept.as_slice() {
            let _ = eprintln!(self.rt; "{line}");
        }
    }

    fn note(&mut self, job: &DetectJob, answer: &Result<Probed, DetectFault>)
        ensures { self.new.spawner ≡ self.old.spawner }
    {
        // Where memory is short, nothing is said.
        if let Ok(line) = asked_line(self.rt.alloc(), job, answer) {
            if self.level.says_progress() {
                let _ = eprintln!(self.rt; "{line}");
            } else {
                let _ = self.kept.push(line);
            }
        }
    }
}

impl<S: Spawner + Drop, R: Eprint + AllocGlobal + Drop> Spawner for ProgressSpawner<S, R> {
    ghost runs = { λ progress. S.runs progress.spawner };

    ghost says = { λ progress. S.says progress.spawner };

    ghost faults = { λ progress. S.faults progress.spawner };

    fn detect(&mut self, job: &DetectJob) -> Result<Probed, DetectFault> {
        let answer = self.spawner.detect(job);
        self.note(job, &answer);
        answer
    }
}

fn asked_line(
    alloc: Global,
    job: &DetectJob,
    answer: &Result<Probed, DetectFault>,
) -> Result<String, AllocError> {
    let (id, version) = (job.id.as_str(), job.version.as_str());
    match ended_with(alloc, answer) {
        Answered::Passed => format!(in alloc; "asked {id}@{version}: pass"),
        Answered::Failed => format!(in alloc; "asked {id}@{version}: fail"),
        Answered::Code(code) => format!(in alloc; "asked {id}@{version}: error, exit code {code}"),
        Answered::Signal => format!(in alloc; "asked {id}@{version}: error, ended by a signal"),
        Answered::Plan => format!(in alloc; "asked {id}@{version}: error, its plan can't be read"),
        Answered::NotRun => format!(in alloc; "asked {id}@{version}: not run"),
    }
}

// What a child's end means (buildpack.md, "Detection").
#[derive(Clone, Copy)]
enum Answered {
    Passed,
    Failed,
    Code(i32),
    Signal,
    Plan,
    NotRun,
}

fn ended_with(alloc: Global, answer: &Result<Probed, DetectFault>) -> Answered {
    let Ok(probed) = answer else {
        return Answered::NotRun;
    };
    match probed.code {
        Some(0) if is_plan(alloc, probed.plan.as_slice()) => Answered::Passed,
        Some(0) => Answered::Plan,
        Some(100) => Answered::Failed,
        Some(code) => Answered::Code(code),
        None => Answered::Signal,
    }
}

const LONGEST_PLAN: usize = 1_048_576;

fn is_plan(alloc: Global, plan: &[u8]) -> bool {
    plan.len() <= LONGEST_PLAN && read_build_plan(alloc, plan).is_ok()
}
