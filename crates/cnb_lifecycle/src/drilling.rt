// What `drill` does.
ghost use Rattle.std.specs.Prelude.{◌≡◌, IfErr, IfOk};
ghost use Rattle.cnb_words.specs.Drill.{KeepsLimits};
ghost use Rattle.cnb_drill.specs.Report.{drill_text};

use crate::answer::Answer;
use crate::refusal::Refusal;
use cnb_drill::{drill, drill_spawners};
use cnb_words::DrillWords;
use std::alloc::Global;
use std::thread::Threads;

/// Detects over spawners of its own. Nothing outside is looked at.
pub(crate) fn run_drill<R: Threads + Sync>(
    rt: &R,
    alloc: Global,
    options: &DrillWords,
) -> Result<Answer, Refusal>
    requires limits { KeepsLimits options.now }
    ensures text { IfOk result (λ answer. answer ≡ Answer.Printed (drill_text options.now.number)) }
    ensures memory { IfErr result (λ refusal. refusal ≡ Refusal.Memory) }
{
    let mut spawners = drill_spawners(alloc, options.number)?;
    let text = drill(rt, alloc, options.number, &mut spawners)?;
    Ok(Answer::Printed(text))
}
