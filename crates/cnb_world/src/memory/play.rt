// What children of a world in memory do, and the rows of those that ran.
ghost use Rattle.std.specs.Prelude.{◌≡◌, ◌≤◌, IfOk, length};
ghost use Rattle.cnb_world.specs.Memory.{end_of};

use crate::child::{ChildJob, End};
use crate::memory::cut::{MAX_READ, first_bytes};
use crate::path::Path;
use crate::values::{Bytes, List, Memory, Text};
use crate::world::Placed;
use std::alloc::Global;

/// What a child of a program does: it ends so, after it removed paths with all below them and left items.
#[derive(Drop)]
pub struct Play {
    pub program: Text,
    pub end: End,
    pub removes: List<Path>,
    pub leaves: List<Placed>,
}

impl Play {
    /// How a child of this job ends. What it wrote on descriptor 3 is kept only where the job asks for it.
    pub fn end_of(&self, alloc: Global, job: &ChildJob) -> Result<End, Memory>
        ensures end { IfOk result (λ end. end ≡ end_of job.now.side self.now.end) }
        ensures bound { IfOk result (λ end. length end.side ≤ 1048577) }
    {
        let side = if job.side {
            first_bytes(self.end.side.as_slice(), MAX_READ)
        } else {
            &[]
        };
        Ok(End {
            code: self.end.code,
            side: Bytes::of(alloc, side)?,
        })
    }
}

/// A child that ran, how it ended, and what it did: it removed paths with all below them, and left items.
#[derive(Drop)]
pub struct ChildRun {
    pub job: ChildJob,
    pub end: End,
    pub removes: List<Path>,
    pub leaves: List<Placed>,
}
