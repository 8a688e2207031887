// Detect children as programs of the system.
ghost use Rattle.std.specs.Prelude.{◌≡◌, ◌≤◌, ◌++◌, ◌∷◌, [], None, IfOk, OnErr, OnOk, length};
ghost use Rattle.std.specs.Result.{result_ok};
ghost use Rattle.cnb_world.specs.Calls.{CountsDetect};

use crate::failure::Failure;
use crate::fault::HostFault;
use crate::prober::Prober;
use crate::rows::{once_kept, with_end};
use cnb_world::{DetectFault, DetectJob, Memory, Path, Probed, Spawner};
use std::alloc::{AllocError, Global};
use std::marker::Model;
use std::os::unix::fs::FileExt;
use std::process::{Processes, Stdio};
use std::rt::Files;

/// A spawner that runs each detect child as a program, waits for it, and keeps the list of those that ended. Contracts
/// see it as that list and the count of the children that gave no answer.
#[derive(Drop)]
pub struct HostSpawner<R: Files + Processes + AllocGlobal + Drop> {
    rt: R,
    runs: Vec<Row>,
    faults: u64,
    failure: Option<(Path, Failure)>,
    prober: Prober,
}

// A child that ended.
#[derive(Drop)]
struct Row {
    job: DetectJob,
    probed: Probed,
}

impl Model for Row {
    ghost use Rattle.cnb_world.specs.Runs.{Ran};

    ghost Value = { Ran };

    ghost view = { λ row. record { job = row.job; probed = row.probed } };
}

impl<R: Files + Processes + AllocGlobal + Drop> Model for HostSpawner<R> {
    ghost use Rattle.cnb_host.specs.Spawned.{Spawned};

    ghost Value = { Spawned };

    ghost view = { λ spawner. record { runs = spawner.runs.items; faults = spawner.faults } };
}

impl<R: Files + Processes + AllocGlobal + Drop> HostSpawner<R> {
    pub fn new(rt: R) -> HostSpawner<R>
        ensures runs { result.runs ≡ [] }
        ensures faults { result.faults ≡ 0 }
    {
        let runs = Vec::new(rt.alloc());
        HostSpawner {
            rt,
            runs,
            faults: 0,
            failure: None,
            prober: Prober::new(),
        }
    }

    /// Why the child failed to run that failed last, with its program.
    pub fn failure(&self) -> Result<Option<String>, AllocError> {
        match &self.failure {
            Some((program, failure)) => {
                let text = failure.text(self.rt.alloc())?;
                let program = program.as_str().escape_debug();
                Ok(Some(format!(in self.rt.alloc(); "{program}: {}", text.as_str())?))
            }
            None => Ok(None),
        }
    }

    // Takes the memory for the child's row before the child starts.
    fn run_job(&mut self, job: &DetectJob) -> Result<Probed, HostFault>
    where
        R::File: FileExt + Into<Stdio>,
        ensures ok { IfOk result (λ probed. self.new.runs
            ≡ self.old.runs ++ record { job = job.now; probed = probed } ∷ []) }
        ensures bound { IfOk result (λ probed. length probed.plan ≤ 1048577) }
        ensures err { OnErr result (self.new.runs ≡ self.old.runs) }
        ensures faults { self.new.faults ≡ self.old.faults }
    {
        self.runs.reserve(1)?;
        let kept = job.copy(self.rt.alloc())?;
        let probed = self.prober.probe(&self.rt, job);
        let (kept, probed) = with_end(kept, probed)?;
        let done = self.keep(kept, &probed);
        once_kept(done, probed)
    }

    // Adds the row of a child that ended.
    fn keep(&mut self, job: DetectJob, probed: &Probed) -> Result<(), HostFault>
        ensures ok { OnOk result (self.new.runs ≡ self.old.runs ++ record { job = job; probed = probed.now } ∷ []) }
        ensures err { OnErr result (self.new.runs ≡ self.old.runs) }
        ensures faults { self.new.faults ≡ self.old.faults }
    {
        let row = row_of(self.rt.alloc(), job, probed)?;
        Ok(self.runs.push(row)?)
    }

    fn counted(
        &mut self,
        job: &DetectJob,
        outcome: Result<Probed, HostFault>,
    ) -> Result<Probed, DetectFault>
        ensures value { result_ok result ≡ result_ok outcome }
        ensures faults { CountsDetect result self.old.faults self.new.faults }
        ensures runs { self.new.runs ≡ self.old.runs }
    {
        match outcome {
            Ok(probed) => Ok(probed),
            Err(HostFault::Failed(cause)) => {
                if let Ok(program) = job.program.copy(self.rt.alloc()) {
                    self.failure = Some((program, Failure::to_run(cause)));
                }
                self.faults = self.faults.saturating_add(1);
                Err(DetectFault::Failed)
            }
            Err(HostFault::Memory) => Err(DetectFault::Memory),
        }
    }
}

impl<R: Files + Processes + AllocGlobal + Drop> Spawner for HostSpawner<R>
where
    R::File: FileExt + Into<Stdio>,
{
    ghost use Rattle.std.specs.Prelude.{None};

    ghost runs = { λ spawner. spawner.runs };

    ghost says = { λ _. None };

    ghost faults = { λ spawner. spawner.faults };

    fn detect(&mut self, job: &DetectJob) -> Result<Probed, DetectFault> {
        let outcome = self.run_job(job);
        self.counted(job, outcome)
    }
}

fn row_of(alloc: Global, job: DetectJob, probed: &Probed) -> Result<Row, Memory>
    ensures { IfOk result (λ row. row ≡ record { job = job; probed = probed.now }) }
{
    let probed = probed.copy(alloc)?;
    Ok(Row { job, probed })
}
