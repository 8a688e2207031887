// What is asked for.
ghost use Rattle.std.specs.Prelude.{◌≡◌, IfErr, IfOk, map, string_bytes};
ghost use Rattle.cnb_words.specs.Words.{AsksWithinLimits};
ghost use Rattle.steps.specs.Causes.{IsAnswer, IsGivenCause};
ghost use Rattle.cnb_lifecycle.specs.Commands.{command_in, platform_api};
ghost use Rattle.cnb_lifecycle.specs.Faults.{cause_of};

use crate::refusal::Refusal;
use cnb_words::{Asked, read_words};
use cnb_world::{Env, Text};
use std::alloc::Global;
use std::mem::drop;

/// The Platform API that is served.
const PLATFORM_API: &str = "0.12";

// Refuses another Platform API than the one that is served (platform.md, "Platform API Compatibility").
fn platform_api(alloc: Global, env: &Env) -> Result<(), Refusal>
    ensures command { IsAnswer cause_of result (platform_api env.now) }
    ensures cause { IfErr result (λ refusal. IsGivenCause (cause_of refusal)) }
{
    match env.get("CNB_PLATFORM_API") {
        Some(api) if api.as_str() != PLATFORM_API => Err(Refusal::PlatformApi(api.copy(alloc)?)),
        _ => Ok(()),
    }
}

/// The command that the words ask for, where it is served under this environment.
#[tactic(auto, unfolding(crate::specs::Commands::command_in))]
pub(crate) fn command(alloc: Global, words: &[String], env: &Env) -> Result<Asked, Refusal>
    ensures command { IsAnswer cause_of result (command_in (map string_bytes words.now) env.now) }
    ensures cause { IfErr result (λ refusal. IsGivenCause (cause_of refusal)) }
    ensures limits { IfOk result AsksWithinLimits }
{
    let asked = read_words(alloc, words)?;
    match platform_api(alloc, env) {
        Ok(()) => Ok(asked),
        Err(refusal) => {
            drop(asked);
            Err(refusal)
        }
    }
}
