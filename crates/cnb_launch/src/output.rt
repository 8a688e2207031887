// What a program in `exec.d` puts out.
ghost use Rattle.std.specs.Prelude.{◌≡◌, ◌==◌, IfOk, option_map};
ghost use Rattle.std.specs.List.{list_any};
ghost use Rattle.toml.specs.View.{table_view, view};
ghost use Rattle.cnb_toml.specs.Document.{table_of_document};
ghost use Rattle.toml.specs.Data.{as_str};
ghost use Rattle.cnb_launch.specs.Output.{is_variable, table_in, with_output, with_string, with_texts};

use cnb_toml::{Doc, DocFault};
use cnb_world::{Env, LONGEST_DOCUMENT, Memory, Text};
use std::alloc::Global;
use toml::{Table, Value};

fn has_equals(name: &[u8]) -> bool
    ensures { result ≡ list_any (λ byte. byte == 61) name.now }
{
    name.iter().any(|byte| *byte == b'=')
}

fn has_zero(text: &[u8]) -> bool
    ensures { result ≡ list_any (λ byte. byte == 0) text.now }
{
    text.iter().any(|byte| *byte == 0)
}

fn is_variable(name: &str, text: &str) -> bool
    ensures { result ≡ is_variable name.now text.now }
{
    !name.is_empty() && !has_equals(name.as_bytes()) && !has_zero(text.as_bytes())
}

fn with_string(
    alloc: Global,
    mut env: Env,
    name: &str,
    value: &Value,
) -> Result<Option<Env>, Memory>
    ensures { IfOk result (λ made. made ≡ with_string name.now (as_str (view value.now)) env) }
{
    match value.as_str() {
        Some(text) if is_variable(name, text) => {
            env.set(Text::of(alloc, name)?, Text::of(alloc, text)?)?;
            Ok(Some(env))
        }
        Some(_) | None => Ok(None),
    }
}

// The environment with what a table says, where it says texts alone.
fn with_texts(alloc: Global, mut env: Env, table: &Table) -> Result<Option<Env>, Memory>
    ensures { IfOk result (λ made. made ≡ with_texts (table_view table.now) env) }
{
    for (name, value) in table.iter() {
        match with_string(alloc, env, name.as_str(), value)? {
            Some(changed) => env = changed,
            None => return Ok(None),
        }
    }
    Ok(Some(env))
}

fn read_output(alloc: Global, bytes: &[u8]) -> Result<Option<Doc>, Memory>
    ensures { IfOk result (λ doc. option_map table_of_document doc ≡ table_in bytes.now) }
{
    if bytes.len() > LONGEST_DOCUMENT {
        return Ok(None);
    }
    match Doc::read(alloc, bytes) {
        Ok(doc) => Ok(Some(doc)),
        Err(DocFault::Memory) => Err(Memory),
        Err(_) => Ok(None),
    }
}

/// The environment with an output, where that is a table of texts (buildpack.md, "exec.d").
#[tactic(auto, unfolding(crate::specs::Output::with_output))]
pub(crate) fn with_output(alloc: Global, env: Env, bytes: &[u8]) -> Result<Option<Env>, Memory>
    ensures { IfOk result (λ made. made ≡ with_output bytes.now env) }
{
    match read_output(alloc, bytes)? {
        Some(doc) => Ok(with_texts(alloc, env, doc.table())?),
        None => Ok(None),
    }
}
