// What a trial keeps.
ghost use Rattle.std.specs.Prelude.{◌≡◌, ◌<◌, ◌^◌, IfOk, length};
ghost use Rattle.std.specs.Option.{option_map};
ghost use Rattle.plan_resolve.specs.Trials.{kept_of};

use crate::borrowed::borrow_rows;
use crate::pruning::kept_places;
use crate::rows::Trial;
use cnb_world::Memory;
use std::alloc::Global;

/// The places that a trial keeps, ascending, or none where the trial fails.
pub fn kept(alloc: Global, trial: &Trial) -> Result<Option<Vec<u32>>, Memory>
    requires { length trial.now < 2 ^ 32 }
    ensures { IfOk result (λ kept. option_map (λ places. places.items) kept ≡ kept_of trial.now) }
{
    let rows = borrow_rows(alloc, trial.as_slice())?;
    kept_places(alloc, rows.as_slice())
}
