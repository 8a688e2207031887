// What a detect child's end says.
ghost use Rattle.std.specs.Prelude.{◌≡◌, IfOk};
ghost use Rattle.bp_docs.specs.BuildPlan.{build_plan_in};
ghost use Rattle.detect_core.specs.Answer.{answer_of, build_plan, pass_or_error};

use crate::chosen::Verdict;
use bp_docs::read_build_plan;
use cnb_toml::DocFault;
use cnb_world::{Memory, Probed};
use std::alloc::Global;

/// What a detect child's end says (buildpack.md, "Detection").
pub fn answer(alloc: Global, probed: &Probed) -> Result<Verdict, Memory>
    ensures { IfOk result (λ verdict. verdict ≡ answer_of build_plan probed.now) }
{
    match probed.code {
        Some(0) => passed(alloc, probed.plan.as_slice()),
        Some(100) => Ok(Verdict::Fail),
        Some(_) | None => Ok(Verdict::Error),
    }
}

// A child that passed says so only by a Build Plan that can be read.
fn passed(alloc: Global, plan: &[u8]) -> Result<Verdict, Memory>
    ensures { IfOk result (λ verdict. verdict ≡ pass_or_error (build_plan plan.now)) }
{
    match read_build_plan(alloc, plan) {
        Ok(options) => Ok(Verdict::Pass(options)),
        Err(DocFault::Memory) => Err(Memory),
        Err(_) => Ok(Verdict::Error),
    }
}
