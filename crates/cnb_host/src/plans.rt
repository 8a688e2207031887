// The plan files of detect children.
//
// The folder that they are made in is looked at once, and again where no plan file can be made in it.
ghost use Rattle.std.specs.Prelude.{◌≤◌, IfOk, length};

use crate::fault::HostFault;
use crate::files::{fresh_file, make_folders, read_unless_empty};
use cnb_world::{Bytes, LONGEST_DOCUMENT, Path, Text, parent_text};
use std::alloc::Global;
use std::os::unix::fs::FileExt;
use std::rt::Files;

/// The most that is read of a plan file: one byte more than a document may have.
const PLAN_MAX: u64 = LONGEST_DOCUMENT as u64 + 1;

/// The folder of the plan file that was made last, where there is one.
#[derive(Drop)]
pub struct PlanFolder {
    last: Option<Text>,
}

impl PlanFolder {
    pub fn none() -> PlanFolder {
        PlanFolder { last: None }
    }

    /// Makes an empty plan file, and the folders above it that are missing.
    pub fn make_plan<R: Files>(
        &mut self,
        rt: &R,
        alloc: Global,
        plan: &Path,
    ) -> Result<(), HostFault> {
        let folder = parent_text(plan.as_str());
        if self.is_last(folder) && fresh_file(rt, plan.as_str()).is_ok() {
            return Ok(());
        }
        self.last = None;
        make_folders(rt, folder)?;
        fresh_file(rt, plan.as_str())?;
        self.last = Some(Text::of(alloc, folder)?);
        Ok(())
    }

    fn is_last(&self, folder: &str) -> bool {
        match &self.last {
            Some(last) => last.as_str() == folder,
            None => false,
        }
    }
}

/// What a child has left in its plan file.
pub fn read_plan<R: Files>(rt: &R, alloc: Global, plan: &Path) -> Result<Bytes, HostFault>
where
    R::File: FileExt,
    ensures bound { IfOk result (λ bytes. length bytes ≤ 1048577) }
{
    read_unless_empty(rt, alloc, plan.as_str(), PLAN_MAX)
}
