// A line of a record, written.
ghost use Rattle.std.specs.Prelude.{◌≡◌, ◌++◌, IfOk, OnOk, codes, flat_map, string_bytes};
ghost use Rattle.detect_record.specs.Forms.{code_text, plan_text, spaced, step_text};
ghost use Rattle.detect_record.specs.Lines.{answer_text, group_text, target_text};

use crate::parts::{GroupLine, Line, Side, Step};
use cnb_toml::{Key, Target};
use cnb_world::{Memory, Probed};
use std::alloc::Global;

fn code_text(alloc: Global, code: Option<i32>) -> Result<String, Memory>
    ensures { IfOk result (λ text. string_bytes text ≡ code_text code) }
{
    match code {
        Some(code) => Ok(format!(in alloc; "{code}")?),
        None => Ok(String::from_str(alloc, "none")?),
    }
}

fn plan_text(alloc: Global, plan: &[u8]) -> Result<String, Memory>
    ensures { IfOk result (λ text. string_bytes text ≡ plan_text plan.now) }
{
    if plan.is_empty() {
        return Ok(String::from_str(alloc, "-")?);
    }
    Ok(hex::encode(alloc, plan)?)
}

#[tactic(auto, unfolding(crate::specs::Forms::step_text))]
fn step_text(alloc: Global, step: Step) -> Result<String, Memory>
    ensures { IfOk result (λ text. string_bytes text ≡ step_text step) }
{
    let Step { place, side, name } = step;
    match side {
        Side::Required => Ok(format!(in alloc; "{place}:r:{name}")?),
        Side::Provided => Ok(format!(in alloc; "{place}:v:{name}")?),
    }
}

fn push_step(alloc: Global, text: &mut String, step: Step) -> Result<(), Memory>
    ensures { OnOk result (string_bytes text.new ≡ string_bytes text.old ++ spaced step) }
{
    let step = step_text(alloc, step)?;
    text.push_str(" ")?;
    Ok(text.push_str(step.as_str())?)
}

fn steps_text(alloc: Global, name: &str, steps: &[Step]) -> Result<String, Memory>
    ensures { IfOk result (λ text. string_bytes text ≡ name.now ++ flat_map spaced steps.now) }
{
    let mut text = String::from_str(alloc, name)?;
    for step in steps {
        push_step(alloc, &mut text, *step)?;
    }
    Ok(text)
}

fn target_names(alloc: Global, target: &Target) -> Result<String, Memory>
    ensures { IfOk result (λ text. string_bytes text ≡ target.now.os ++ codes " " ++ target.now.arch) }
{
    let os = target.os.as_str();
    let arch = target.arch.as_str();
    Ok(format!(in alloc; "{os} {arch}")?)
}

fn target_text(alloc: Global, target: &Option<Target>) -> Result<String, Memory>
    ensures { IfOk result (λ text. string_bytes text ≡ target_text target.now) }
{
    match target {
        Some(target) => target_names(alloc, target),
        None => Ok(String::from_str(alloc, "none")?),
    }
}

/// The line of a target, without its line feed.
pub(crate) fn target_line(alloc: Global, target: &Option<Target>) -> Result<String, Memory>
    ensures { IfOk result (λ text. string_bytes text ≡ codes "target " ++ target_text target.now) }
{
    let target = target_text(alloc, target)?;
    Ok(format!(in alloc; "target {target}")?)
}

fn answer_text(alloc: Global, key: &Key, probed: &Probed) -> Result<String, Memory>
    ensures { IfOk result (λ text. string_bytes text ≡ answer_text key.now probed.now) }
{
    let id = key.id.as_str();
    let version = key.version.as_str();
    let code = code_text(alloc, probed.code)?;
    let plan = plan_text(alloc, probed.plan.as_slice())?;
    Ok(format!(in alloc; "{id} {version} {code} {plan}")?)
}

/// The line of a buildpack's answer, without its line feed.
pub(crate) fn answer_line(alloc: Global, key: &Key, probed: &Probed) -> Result<String, Memory>
    ensures { IfOk result (λ text. string_bytes text ≡ codes "answer " ++ answer_text key.now probed.now) }
{
    let answer = answer_text(alloc, key, probed)?;
    Ok(format!(in alloc; "answer {answer}")?)
}

/// The line of a group or of a trial, without its line feed.
#[tactic(auto, unfolding(crate::specs::Lines::group_text))]
pub(crate) fn group_text(alloc: Global, line: &GroupLine) -> Result<String, Memory>
    ensures { IfOk result (λ text. string_bytes text ≡ group_text line.now) }
{
    match line {
        GroupLine::Fails(member) => Ok(format!(in alloc; "fails {member}")?),
        GroupLine::Idle => Ok(String::from_str(alloc, "idle")?),
        GroupLine::Trials(count) => Ok(format!(in alloc; "trials {count}")?),
        GroupLine::Chosen(count) => Ok(format!(in alloc; "chosen {count}")?),
        GroupLine::Drop(steps) => Ok(steps_text(alloc, "drop", steps.as_slice())?),
        GroupLine::Keep(steps) => Ok(steps_text(alloc, "keep", steps.as_slice())?),
    }
}
