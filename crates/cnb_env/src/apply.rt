// What an environment file does to its variable.
ghost use Rattle.std.specs.Prelude.{◌≡◌, ◌++◌, IfOk, OnErr, OnOk};
ghost use Rattle.cnb_env.specs.Apply.{applied, behind_value, effect_of, in_front};
ghost use Rattle.cnb_env.specs.Apply.{new_value, text_of, where_empty, with_new};

use crate::names::{is_no_variable, split_name};
use cnb_world::{Env, Memory, Text};
use std::alloc::Global;

/// What a file does to the value that its variable has.
#[derive(Clone, Copy, Debug, PartialEq, Eq)]
pub(crate) enum Effect {
    Override,
    Append,
    Prepend,
    Default,
    Nothing,
}

fn effect_of(suffix: &str) -> Effect
    ensures { result ≡ effect_of suffix.now }
{
    if suffix == "" || suffix == "override" {
        Effect::Override
    } else if suffix == "append" {
        Effect::Append
    } else if suffix == "prepend" {
        Effect::Prepend
    } else if suffix == "default" {
        Effect::Default
    } else {
        Effect::Nothing
    }
}

// Three texts behind one another.
fn joined(alloc: Global, front: &str, between: &str, back: &str) -> Result<Text, Memory>
    ensures { IfOk result (λ text. text ≡ front.now ++ between.now ++ back.now) }
{
    let mut text = String::from_str(alloc, front)?;
    text.push_str(between)?;
    text.push_str(back)?;
    Ok(Text::from_string(text))
}

fn behind_value(alloc: Global, old: &str, delim: &str, text: &str) -> Result<Text, Memory>
    ensures { IfOk result (λ value. value ≡ behind_value old.now delim.now text.now) }
{
    if old.is_empty() {
        Text::of(alloc, text)
    } else {
        joined(alloc, old, delim, text)
    }
}

/// A text in front of an old value, with the delimiter between where the old value isn't empty.
pub(crate) fn in_front(alloc: Global, old: &str, delim: &str, text: &str) -> Result<Text, Memory>
    ensures { IfOk result (λ value. value ≡ in_front old.now delim.now text.now) }
{
    if old.is_empty() {
        Text::of(alloc, text)
    } else {
        joined(alloc, text, delim, old)
    }
}

fn where_empty(alloc: Global, old: &str, text: &str) -> Result<Option<Text>, Memory>
    ensures { IfOk result (λ new. new ≡ where_empty old.now text.now) }
{
    if old.is_empty() {
        Ok(Some(Text::of(alloc, text)?))
    } else {
        Ok(None)
    }
}

// The value that the variable gets, where it gets one.
fn new_value(
    alloc: Global,
    effect: Effect,
    old: &str,
    delim: &str,
    text: &str,
) -> Result<Option<Text>, Memory>
    ensures { IfOk result (λ new. new ≡ new_value effect old.now delim.now text.now) }
{
    match effect {
        Effect::Override => Ok(Some(Text::of(alloc, text)?)),
        Effect::Append => Ok(Some(behind_value(alloc, old, delim, text)?)),
        Effect::Prepend => Ok(Some(in_front(alloc, old, delim, text)?)),
        Effect::Default => where_empty(alloc, old, text),
        Effect::Nothing => Ok(None),
    }
}

/// The value of a variable, which is empty where it isn't set.
pub(crate) fn text_of<'a>(env: &'a Env, name: &str) -> &'a str
    ensures { result.now ≡ text_of env.now name.now }
{
    match env.get(name) {
        Some(value) => value.as_str(),
        None => "",
    }
}

/// Applies a file of this name and these contents (buildpack.md, "Environment Variable Modification Rules"). The
/// delimiter stands between the contents and an old value that isn't empty.
pub fn apply_file(
    alloc: Global,
    env: &mut Env,
    name: &str,
    value: &str,
    delim: &str,
) -> Result<(), Memory>
    ensures applied { OnOk result (env.new ≡ applied name.now value.now delim.now env.old) }
    ensures refused { OnErr result (env.new ≡ env.old) }
{
    let (variable, suffix) = split_name(name);
    if is_no_variable(variable) {
        return Ok(());
    }
    let new = new_value(
        alloc,
        effect_of(suffix),
        text_of(env, variable),
        delim,
        value,
    )?;
    put(alloc, env, variable, new)?;
    Ok(())
}

fn put(alloc: Global, env: &mut Env, name: &str, new: Option<Text>) -> Result<(), Memory>
    ensures applied { OnOk result (env.new ≡ with_new name.now new env.old) }
    ensures refused { OnErr result (env.new ≡ env.old) }
{
    if let Some(value) = new {
        let name = Text::of(alloc, name)?;
        env.set(name, value)?;
    }
    Ok(())
}
