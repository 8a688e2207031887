// The call.
ghost use Rattle.std.specs.Prelude.{◌≡◌, ◌<◌, ◌++◌, IfOk, OnOk, length, string_bytes};
ghost use Rattle.std.specs.Fmt.{decimal};
ghost use Rattle.steps.specs.Outside.{spawners_seen};
ghost use Rattle.cnb_drill.specs.Runs.{RunsDrill};
ghost use Rattle.cnb_drill.specs.Spawners.{AnswerBy};
ghost use Rattle.cnb_drill.specs.Report.{drill_text, drill_lines};

use crate::detection::{Found, find};
use crate::trees::layer_bytes;
use cnb_world::{Memory, Spawner, SureSpawner, Text};
use std::alloc::{AllocError, Global};
use std::thread::Threads;

/// Adds a word and a number.
fn push_number(alloc: Global, text: &mut String, name: &str, number: u64) -> Result<(), AllocError>
    ensures { OnOk result (string_bytes text.new ≡ string_bytes text.old ++ (name.now ++ decimal number)) }
{
    text.push_str(name)?;
    text.push_str(format!(in alloc; "{number}")?.as_str())?;
    Ok(())
}

/// The six lines. Groups and trials are counted from 1.
fn lines(alloc: Global, found: &Found, bytes: usize) -> Result<Text, Memory>
    requires place { found.now.place < 4096 }
    requires trial { found.now.trial < 4096 }
    ensures { IfOk result (λ text. text ≡ drill_lines found.now bytes) }
{
    let mut text = String::new(alloc);
    push_number(alloc, &mut text, "groups ", found.groups as u64)?;
    push_number(alloc, &mut text, "\ntried ", found.place as u64 + 1)?;
    push_number(alloc, &mut text, "\nasked ", found.asked as u64)?;
    push_number(alloc, &mut text, "\ntrial ", found.trial as u64 + 1)?;
    push_number(alloc, &mut text, " of ", found.trials as u64)?;
    push_number(alloc, &mut text, "\nplan ", found.entries as u64)?;
    push_number(alloc, &mut text, "\nlayer bytes ", bytes as u64)?;
    text.push_str("\n")?;
    Ok(Text::from_string(text))
}

/// Checks the order, detects by eight workers, and spells the four trees. The answer is the text of the six lines: how
/// many groups there are, how many were tried, how many children were asked, the trial that passed and of how many, the
/// entries of the plan, and the bytes of the trees. Nothing is refused but for want of memory.
pub fn drill<R: Threads + Sync>(
    rt: &R,
    alloc: Global,
    number: u32,
    spawners: &mut Vec<SureSpawner>,
) -> Result<Text, Memory>
    requires number { number < 4096 }
    requires some { 0 < length spawners.old.items }
    requires says { AnswerBy number (spawners_seen ⟦<SureSpawner as Spawner>⟧ spawners.old.items) }
    ensures text { IfOk result (λ text. text ≡ drill_text number) }
    ensures runs { RunsDrill number (spawners_seen ⟦<SureSpawner as Spawner>⟧ spawners.old.items) result
        (spawners_seen ⟦<SureSpawner as Spawner>⟧ spawners.new.items) }
{
    let found = find(rt, alloc, number, spawners)?;
    let bytes = layer_bytes(alloc)?;
    lines(alloc, &found, bytes)
}
